// New rows, compared with the leftovers at the positions where they go.
ghost use Rattle.std.specs.Prelude.{◌≡◌, ℕ, cond, ◌-◌, ◌*◌, ◌≤◌, leb, eqb, length};
ghost use Rattle.archive_fill.specs.Fill.{row_length, row_given, rows_given};
ghost use Rattle.journal_model.specs.Disk.{same_row, agreeing};
ghost use Rattle.journal_calls.specs.Rows.{compared_of, compare_call};

use archive_fill::ROW_LENGTH;
use base_refusal::Refusal;
use block_layout::CELL_CAPACITY;

// How many new rows agree with the leftovers, from the first on, and how many leftovers, the last ones, must be put aside.
#[derive(Clone, Copy, Debug, PartialEq, Eq)]
pub struct Comparison {
    pub agreed: usize,
    pub going: usize,
}

// Compares new rows with the leftovers; none must be put aside if all new rows agree. Each row is a time and a record of 23 bytes, as `put_rows` takes
// them. Refused: 16 for records that are not 23 bytes for each time.
pub fn compare(
    times: &[u64],
    rows: &[u8],
    moments: &[u64],
    left: &[u8],
) -> Result<Comparison, Refusal>
    ensures { (agreed going : ℕ) → compared_of result agreed going
        ≡ compare_call times.now rows.now moments.now left.now
        agreed going }
{
    if !are_records(times.len(), rows.len()) {
        return Err(Refusal::Size);
    }
    if !are_records(moments.len(), left.len()) {
        return Err(Refusal::Size);
    }
    let agreed = agree(times, rows, moments, left);
    let going = going_of(times.len(), moments.len(), agreed);
    Ok(Comparison { agreed, going })
}

// Whether there is a record for each time.
fn are_records(times: usize, rows: usize) -> bool
    ensures { result ≡ eqb rows (row_length * times) }
{
    rows / ROW_LENGTH == times && rows % ROW_LENGTH == 0
}

// How many of the leftovers must be put aside, if `agreed` of the new rows agree.
fn going_of(rows: usize, left: usize, agreed: usize) -> usize
    requires { agreed ≤ left }
    ensures { result ≡ cond (leb rows agreed) 0 (left - agreed) }
{
    if rows <= agreed { 0 } else { left - agreed }
}

// How many rows agree.
fn agree(times: &[u64], rows: &[u8], moments: &[u64], left: &[u8]) -> usize
    requires { (length rows.now ≡ row_length * length times.now)
        × (length left.now ≡ row_length * length moments.now) }
    ensures { (result ≡ agreeing (rows_given times.now rows.now)
        (rows_given moments.now left.now))
        × (result ≤ length moments.now) }
{
    // Kept (loop): four slices go along, two of them in records: a zip of four that also says the index is no plainer.
    let most = times.len().min(moments.len());
    for i in 0..most {
        let at = ROW_LENGTH * i;
        let end = at + ROW_LENGTH;
        if !same(times[i], &rows[at..end], moments[i], &left[at..end]) {
            return i;
        }
    }
    most
}

// Whether two records, with their times, are the same row.
fn same(time: u64, row: &[u8], moment: u64, other: &[u8]) -> bool
    requires { (length row.now ≡ row_length) × (length other.now ≡ row_length) }
    ensures { result ≡ same_row (row_given time row.now) (row_given moment other.now) }
{
    let len = row[1];
    if time != moment || other[1] != len {
        return false;
    }
    if (row[0] != 0) != (other[0] != 0) {
        return false;
    }
    let end = 2 + usize::from(len).min(CELL_CAPACITY);
    block_layout::equal(&row[2..end], &other[2..end])
}
