//! Numbers as text at the right of a field.

ghost use Rattle.std.specs.Prelude.{◌≡◌, ◌/◌, ◌^◌, ◌≤◌, length, decimal};
ghost use Rattle.numbers.specs.Texts.{last_digits, unsigned_text, text_of, right_text, two_digits};

/// How many digits the value has.
fn digit_count(value: u64) -> usize
    ensures { result ≡ length (decimal value) }
{
    match value.checked_ilog10() {
        Some(log) => log as usize + 1,
        None => 1,
    }
}

/// How long the text of the value is without a sign.
fn unsigned_len(value: u64, places: u8) -> usize
    ensures { result ≡ length (unsigned_text value places) }
{
    let digits = digit_count(value);
    if places == 0 {
        digits
    } else {
        // one digit or more before the point
        digits.max(usize::from(places) + 1) + 1
    }
}

/// How long the text of the value is, with this many places after the point.
pub fn decimal_len(value: i64, places: u8) -> usize
    ensures { result ≡ length (text_of value places) }
{
    let len = unsigned_len(value.unsigned_abs(), places);
    if value < 0 { len + 1 } else { len }
}

/// Writes the last digits of the value over the field, and answers the number without them.
fn put_digits(field: &mut [u8], value: u64) -> u64
    ensures is { field.new ≡ last_digits (length field.old) value }
    ensures rest { result ≡ value / 10 ^ length field.old }
{
    let mut rest = value;
    // Kept: an index, since a loop over iter_mut().rev() leaves an invariant no name for the bytes that are written.
    for i in (0..field.len()).rev() {
        field[i] = b'0' + (rest % 10) as u8;
        rest /= 10;
    }
    rest
}

/// Writes the last two digits of the value, with a leading zero and without its sign. For callers within this library: a
/// field of two bytes.
pub fn put_two_digits(field: &mut [u8], value: i64)
    requires { length field.old ≡ 2 }
    ensures { field.new ≡ two_digits value }
{
    put_digits(field, value.unsigned_abs());
}

/// Writes the text of the value without a sign over a field of its length.
fn put_unsigned(field: &mut [u8], value: u64, places: u8)
    requires { length field.old ≡ length (unsigned_text value places) }
    ensures { field.new ≡ unsigned_text value places }
{
    if places == 0 {
        put_digits(field, value);
        return;
    }
    let point = field.len() - usize::from(places) - 1;
    let (whole, back) = field.split_at_mut(point);
    back[0] = b'.';
    let rest = put_digits(&mut back[1..], value);
    put_digits(whole, rest);
}

/// The same with the sign of a negative value.
fn put_signed(field: &mut [u8], value: i64, places: u8)
    requires { length field.old ≡ length (text_of value places) }
    ensures { field.new ≡ text_of value places }
{
    let unsigned = value.unsigned_abs();
    if value < 0 {
        field[0] = b'-';
        put_unsigned(&mut field[1..], unsigned, places);
    } else {
        put_unsigned(field, unsigned, places);
    }
}

/// Writes the value at the right of the field, with spaces before it. For callers within this library: the field has room
/// for the text.
pub fn put_decimal(field: &mut [u8], value: i64, places: u8)
    requires { length (text_of value places) ≤ length field.old }
    ensures { field.new ≡ right_text value places (length field.old) }
{
    let start = field.len() - decimal_len(value, places);
    field[..start].fill(b' ');
    put_signed(&mut field[start..], value, places);
}
