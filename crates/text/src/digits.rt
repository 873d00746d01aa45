// Numbers written in digits.
ghost use Rattle.std.specs.Prelude.{◌≡◌, ◌-◌, ◌^◌, ◌≤◌, ◌<◌, length};
ghost use Rattle.text.specs.Digits.{digit_byte, digits};
ghost use Rattle.text.specs.Inner.{Width};

fn digit(number: u32) -> u8
    requires { number < 16 }
    ensures { result ≡ digit_byte number }
{
    if number < 10 {
        return 0x30 + number as u8;
    }
    0x61 + (number as u8 - 10)
}

// Writes the last digits of a number, as many as there is room for.
pub fn write_digits(number: u64, base: u64, room: &mut [u8])
    requires { (2 ≤ base) × (base ≤ 16) }
    ensures { room.new ≡ digits base (length room.old) number }
{
    let mut rest = number;
    for i in (0..room.len()).rev() {
        room[i] = digit((rest % base) as u32);
        rest = rest / base;
    }
}

// How many digits a number has in decimal.
pub fn width(number: u64) -> usize
    ensures { Width number result 20 }
{
    if number < 10 {
        return 1;
    }
    1 + width(number / 10)
}

// The same for a number of 16 bits, without a branch.
pub fn short_width(number: u16) -> usize
    ensures { Width number result 5 }
{
    1 + (10 <= number) as usize
        + (100 <= number) as usize
        + (1000 <= number) as usize
        + (10000 <= number) as usize
}

// The power of ten that takes a number of this width to five digits.
pub fn scale(width: usize) -> u32
    requires { (1 ≤ width) × (width ≤ 5) }
    ensures { result ≡ 10 ^ (5 - width) }
{
    SCALES[width]
}

const SCALES: [u32; 6] = [0, 10000, 1000, 100, 10, 1];

// The last five digits of a number.
pub fn five_digits(number: u32) -> [u8; 5]
    ensures { result ≡ digits 10 5 number }
{
    [
        digit(number / 10000 % 10),
        digit(number / 1000 % 10),
        digit(number / 100 % 10),
        digit(number / 10 % 10),
        digit(number % 10),
    ]
}
