// Read and put a command, as nine words.
ghost use Rattle.std.specs.Prelude.{◌≡◌};
ghost use Rattle.bundle.specs.Commands.{read_at};
ghost use Rattle.exports.specs.CommandWords.{command_from, put_from};
ghost use Rattle.exports.specs.Told.{read_told, put_told};

// The command at a position, its operands in range, and the position after it.
#[unsafe(no_mangle)]
pub extern "C" fn dezhakom_read_command(
    bytes: &[u8],
    position: usize,
    command: &mut [u32; 9],
    next: &mut usize,
    place: &mut usize,
) -> u32
    ensures { read_told (read_at bytes.now position) ≡ record { number = result; place = place.new; answer = record { command = command.new; next = next.new } } }
{
    exports::commands::dezhakom_read_command(bytes, position, command, next, place)
}

// Puts a command's bytes into the buffer at a position; the position after it.
#[unsafe(no_mangle)]
pub extern "C" fn dezhakom_put_command(
    command: &[u32; 9],
    buffer: &mut [u8],
    position: usize,
    next: &mut usize,
    place: &mut usize,
) -> u32
    ensures { put_told (put_from (command_from command.now) buffer.old position) ≡ record { told = record { number = result; place = place.new; answer = next.new }; memory = buffer.new } }
{
    exports::commands::dezhakom_put_command(command, buffer, position, next, place)
}
