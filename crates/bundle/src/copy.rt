// Bytes copied into a lent buffer: a function between crates, for commands here and for the lines of `text`.
ghost use Rattle.std.specs.Prelude.{◌≡◌, ◌+◌, ◌≤◌, length};
ghost use Rattle.bundle.specs.Commands.{written};

// Copies all of the bytes into the buffer, from the position on.
#[tactic(auto, using(crate::proofs::Copying::copied), unfolding(crate::specs::Commands::written))]
pub fn copy_in(bytes: &[u8], buffer: &mut [u8], position: usize)
    requires { position + length bytes.now ≤ length buffer.old }
    ensures { buffer.new ≡ written buffer.old position bytes.now }
{
    buffer[position..position + bytes.len()].copy_from_slice(bytes);
}
