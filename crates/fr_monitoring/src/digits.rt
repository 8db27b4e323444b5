//! Numbers with a fixed number of digits.

ghost use Rattle.std.specs.Prelude.{◌≡◌, ◌<◌};
ghost use Rattle.fr_monitoring.specs.LineText.{decimal_digit, hex_digit, nine_digits, three_digits, six_digits};

/// Returns the decimal digit of a number at the place that is worth so much.
fn decimal_digit(number: u32, worth: u32) -> u8
    requires { 0 < worth }
    ensures { result ≡ decimal_digit number worth }
{
    b'0' + (number / worth % 10) as u8
}

/// Returns the last nine decimal digits of a number.
pub(crate) fn nine_digits(number: u32) -> [u8; 9]
    ensures { result ≡ nine_digits number }
{
    [
        decimal_digit(number, 100_000_000),
        decimal_digit(number, 10_000_000),
        decimal_digit(number, 1_000_000),
        decimal_digit(number, 100_000),
        decimal_digit(number, 10_000),
        decimal_digit(number, 1_000),
        decimal_digit(number, 100),
        decimal_digit(number, 10),
        decimal_digit(number, 1),
    ]
}

/// Returns the hexadecimal digit of a number at the place that is worth so much.
fn hex_digit(number: u32, worth: u32) -> u8
    requires { 0 < worth }
    ensures { result ≡ hex_digit number worth }
{
    let digit = (number / worth % 16) as u8;
    if digit < 10 { b'0' + digit } else { 87 + digit }
}

/// Returns the last three hexadecimal digits of a number.
pub(crate) fn three_digits(number: u32) -> [u8; 3]
    ensures { result ≡ three_digits number }
{
    [
        hex_digit(number, 0x100),
        hex_digit(number, 0x10),
        hex_digit(number, 1),
    ]
}

/// Returns the last six hexadecimal digits of a number.
pub(crate) fn six_digits(number: u32) -> [u8; 6]
    ensures { result ≡ six_digits number }
{
    [
        hex_digit(number, 0x10_0000),
        hex_digit(number, 0x1_0000),
        hex_digit(number, 0x1000),
        hex_digit(number, 0x100),
        hex_digit(number, 0x10),
        hex_digit(number, 1),
    ]
}
