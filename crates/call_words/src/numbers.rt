//! The number that a text writes.
ghost use Rattle.std.specs.Prelude.{◌≡◌, true, List, ◌≤◌, ◌*◌, ◌+◌, ◌-◌, length, drop, ℕ};
ghost use Rattle.std.specs.List.{list_all};
ghost use Rattle.std.specs.Char.{is_ascii_digit};
ghost use Rattle.call_words.specs.Words.{number_of, is_number, value_in};

fn are_digits(text: &[u8]) -> bool
    ensures { result ≡ list_all is_ascii_digit text.now }
{
    text.iter().all(|byte| byte.is_ascii_digit())
}

// One to ten decimal digits.
fn is_number(text: &[u8]) -> bool
    ensures { result ≡ is_number text.now }
{
    1 <= text.len() && text.len() <= 10 && are_digits(text)
}

// The number that the digits write.
fn number_of(digits: &[u8]) -> u64
    requires few { length digits.now ≤ 10 }
    requires digits { list_all is_ascii_digit digits.now ≡ true }
    ensures { result ≡ number_of digits.now }
{
    let mut number: u64 = 0;
    for digit in digits {
        number = number * 10 + u64::from(*digit - b'0');
    }
    number
}

/// The number that the text writes, where it lies in this range: one to ten decimal digits without a sign.
pub fn value_in(least: u32, most: u32, text: &[u8]) -> Option<u32>
    ensures { result ≡ value_in least most text.now }
{
    if !is_number(text) {
        return None;
    }
    let number = number_of(text);
    if u64::from(least) <= number && number <= u64::from(most) {
        Some(number as u32)
    } else {
        None
    }
}
