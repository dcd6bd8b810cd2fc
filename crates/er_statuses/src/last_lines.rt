//! The last lines of a run, as octets.

ghost use Rattle.std.specs.Prelude.{◌≡◌, ◌++◌, IfOk};
ghost use Rattle.er_statuses.specs.LastLines.{why_word, fetch_line, fault_line, overfull_line};

use er_base::{NoMemory, Side, Why, decimal_word};
use std::alloc::Global;

/// The word for why a file is refused.
pub fn why_octets(why: Why) -> &'static [u8]
    ensures { result.now ≡ why_word why }
{
    match why {
        Why::Header => b"header",
        Why::Word => b"word",
        Why::Count => b"count",
        Why::Level => b"level",
        Why::Late => b"late",
        Why::Number => b"number",
        Why::Hex => b"hex",
        Why::Value => b"value",
        Why::Long => b"long",
    }
}

/// The line of a fetch that failed: `! fetch NAME`.
pub fn fetch_line(alloc: Global, name: &str) -> Result<Vec<u8>, NoMemory>
    ensures { IfOk result (λ line. line.items ≡ fetch_line name.now) }
{
    let mut line = Vec::from_slice(alloc, b"! fetch ".as_slice())?;
    line.extend_from_slice(name.as_bytes())?;
    line.extend_from_slice(b"\n")?;
    Ok(line)
}

/// The line of what is to be told of a line of the file: `! line NUMBER WORD`.
#[tactic(auto, unfolding(crate::specs::LastLines::fault_line))]
pub fn fault_line(alloc: Global, number: usize, word: &[u8]) -> Result<Vec<u8>, NoMemory>
    ensures { IfOk result (λ line. line.items ≡ fault_line number word.now) }
{
    let mut line = Vec::from_slice(alloc, b"! line ".as_slice())?;
    decimal_word(number as u64, &mut line)?;
    line.extend_from_slice(b" ")?;
    line.extend_from_slice(word)?;
    line.extend_from_slice(b"\n")?;
    Ok(line)
}

/// The line of a step that would let too many frames wait: `! overfull LINK S MOST`.
#[tactic(auto, unfolding(crate::specs::LastLines::overfull_line))]
pub fn overfull_line(alloc: Global, link: u8, side: Side, most: usize) -> Result<Vec<u8>, NoMemory>
    ensures { IfOk result (λ line. line.items ≡ overfull_line link side most) }
{
    let mut line = Vec::from_slice(alloc, b"! overfull ".as_slice())?;
    decimal_word(link as u64, &mut line)?;
    line.extend_from_slice(b" ")?;
    line.extend_from_slice(side.word())?;
    line.extend_from_slice(b" ")?;
    decimal_word(most as u64, &mut line)?;
    line.extend_from_slice(b"\n")?;
    Ok(line)
}
