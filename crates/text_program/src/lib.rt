// A program over the lines of its input, in one piece or in chunks: definitions and laws are in specs/ and proofs/. The code here is what such a
// program does with its buffer, without a collector.
#![tactic(auto)]

ghost use Rattle.std.specs.Prelude.{◌≡◌, ◌+◌, ◌≤◌, length, take, drop};
ghost use Rattle.std.proofs.lemmas.List.Edits.{sets};
ghost use Rattle.text_program.specs.Buffer.{Carried};

// Moves what is kept of a line that has not ended, from `from` to `end`, to the front of the buffer, and returns its length.
pub fn carry(buffer: &mut [u8], from: usize, end: usize) -> usize
    ensures { Carried buffer.old from end buffer.new result }
{
    if buffer.len() < end || end < from {
        return 0;
    }
    shift(buffer, from, (end - from).min(text_lines::LINE_LIMIT))
}

fn shift(buffer: &mut [u8], from: usize, n: usize) -> usize
    requires { from + n ≤ length buffer.old }
    ensures { (buffer.new ≡ sets buffer.old 0 (take n (drop from buffer.old)))
        × (result ≡ n) }
{
    for i in 0..n {
        buffer[i] = buffer[from + i];
    }
    n
}
