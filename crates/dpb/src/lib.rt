// The call for a C host. include/dpb.h is its header.
#![tactic(auto)]

ghost use Rattle.std.specs.Prelude.{◌≡◌};
ghost use Rattle.grammar.specs.Letters.{our_table};
ghost use Rattle.hosting.specs.Call.{host_call};

// What one refusal number counts for in what is returned.
const REFUSAL_UNIT: u64 = 65536;

// Lists the book after so many folds. Returns 0, or refusal × 65,536 + line.
// A C host has u64 numbers, between which and usize there is no `From`; a `try_from` would have an arm that never comes.
#[unsafe(no_mangle)]
pub extern "C" fn dpb_list(text: &[u8], folds: u64, listing: &mut [u8]) -> u64
    ensures { record { returned = result; listing = listing.new }
        ≡ host_call our_table text.now folds listing.old }
{
    match hosted::list(text, folds as usize, listing) {
        Ok(_) => 0,
        Err(refused) => {
            let number = refused.cause.number() as u64;
            number * REFUSAL_UNIT + refused.line as u64
        }
    }
}
