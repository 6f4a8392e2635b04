// The judgement on the block with the last row that a state counts.
ghost use Rattle.std.specs.Prelude.{◌≡◌};
ghost use Rattle.archive_model.specs.Row.{block_number};
ghost use Rattle.journal_calls.specs.Block.{is_cut_copy_of, judgement_of, judgement_number};

use crate::Judgement;
use block_layout::BLOCK_LENGTH;

// Judges the block, of which the state has a copy and counts the first `rows` rows.
pub fn judge(last: &[u8], rows: usize, block: &[u8]) -> Judgement
    ensures { result ≡ judgement_of last.now rows block.now }
{
    if is_copy(last, rows, block) {
        if block_layout::equal(block, last) {
            return Judgement::Same;
        }
        return Judgement::Longer;
    }
    if archive_file::sound(block) != 0 {
        return Judgement::Other;
    }
    if block_layout::is_blank(block) {
        return Judgement::Other;
    }
    Judgement::Torn
}

// The number of a judgement for other languages.
impl From<Judgement> for u8 {
    ghost from_gives = { λ j n. n ≡ judgement_number j };

    fn from(j: Judgement) -> u8 {
        match j {
            Judgement::Same => 0,
            Judgement::Longer => 1,
            Judgement::Torn => 2,
            Judgement::Other => 3,
        }
    }
}

// The number in the first four bytes of a block.
pub fn number_of(block: &[u8]) -> u64
    ensures { result ≡ block_number block.now }
{
    if block.len() < 4 {
        return block_layout::read_number(block);
    }
    block_layout::read_number(&block[0..4])
}

// Whether a block, cut to its first `rows` rows, is the copy.
fn is_copy(last: &[u8], rows: usize, block: &[u8]) -> bool
    ensures { result ≡ is_cut_copy_of last.now rows block.now }
{
    if block.len() != BLOCK_LENGTH {
        return false;
    }
    let mut cut = [0u8; BLOCK_LENGTH];
    cut.copy_from_slice(block);
    archive_cut::cut_block(&mut cut, rows).is_ok() && block_layout::equal(&cut, last)
}
