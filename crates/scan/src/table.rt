// Document 01's folding table, worked out from ranges: one entry for each byte value, 0 for a byte that no name has, else the byte that it
// counts as.
ghost use Rattle.std.specs.Prelude.{◌≡◌, suc, ◌+◌, ◌-◌, ◌≤◌, ◌<◌};
ghost use Rattle.limits.specs.Refusal.{number_in};
ghost use Rattle.areas.specs.Area.{put};
ghost use Rattle.grammar.specs.Bytes.{our_letters};
ghost use Rattle.grammar.specs.Letters.{entries_from, our_table};
ghost use Rattle.grammar.specs.Fill.{fill_call};

use limits::{Book, Refusal};

// What lies between a capital letter and its small one.
const TO_SMALL: u8 = b'a' - b'A';

// Document 01's entry for byte b: the small letter, 0 for a byte that no name has.
#[tactic(auto, using(crate::proofs::Ours::capital, crate::proofs::Ours::own_small, crate::proofs::Ours::own_digit, crate::proofs::Ours::own_mark, crate::proofs::Ours::own_line, crate::proofs::Ours::none_low, crate::proofs::Ours::none_slash, crate::proofs::Ours::none_colon, crate::proofs::Ours::none_bracket, crate::proofs::Ours::none_quote, crate::proofs::Ours::none_high))]
pub fn letter(b: u8) -> u8
    ensures { result ≡ our_letters b }
{
    match b {
        b'A'..=b'Z' => b.to_ascii_lowercase(),
        b'a'..=b'z' | b'0'..=b'9' | b'.' | b'_' | b'-' => b,
        _ => 0,
    }
}

// Each byte from first to last gets an entry: itself, with `more` added.
fn fill_range(area: &mut [u8; Book::LETTER_BYTES], first: u8, last: u8, more: u8)
    requires { (first ≤ last) × (last + more < 256) }
    ensures { area.new
        ≡ put first (entries_from (λ b. b + more) (suc last - first) first) area.old }
{
    for b in first..=last {
        area[usize::from(b)] = b + more;
    }
}

// Document 01's table in place of what stood there. It goes range by range into zeros: a call of `letter` for each byte takes many times as
// long.
fn put_table(area: &mut [u8; Book::LETTER_BYTES])
    ensures { area.new ≡ our_table }
{
    area.fill(0);
    fill_range(area, b'A', b'Z', TO_SMALL);
    fill_range(area, b'a', b'z', 0);
    fill_range(area, b'0', b'9', 0);
    fill_range(area, b'-', b'.', 0);
    fill_range(area, b'_', b'_', 0);
}

// Fills a lent area with document 01's table, which the host then lends on.
pub fn fill(area: &mut [u8]) -> Result<(), Refusal>
    ensures { record { number = number_in result; area = area.new } ≡ fill_call area.old }
{
    let Some(entries) = area.first_chunk_mut() else {
        return Err(Refusal::ShortArea);
    };
    put_table(entries);
    Ok(())
}

// Document 01's table as a value, for a host that lends a local.
pub fn folding() -> [u8; Book::LETTER_BYTES]
    ensures { result ≡ our_table }
{
    let mut table = [0u8; Book::LETTER_BYTES];
    // never refused: it has 256 bytes
    let _ = fill(&mut table);
    table
}
