//! A number in a word.
ghost use Rattle.std.specs.Prelude.{◌≡◌, ◌≤◌};
ghost use Rattle.kt_base.specs.Literals.{is_digit};
ghost use Rattle.kt_words.specs.Numbers.{number_said};

fn is_digit(byte: u8) -> bool
    ensures { result ≡ is_digit byte }
{
    b'0' <= byte && byte <= b'9'
}

/// The number that one to ten digits say, where it lies in these bounds.
pub fn number_said(digits: &[u8], least: u32, most: u32) -> Option<u32>
    requires { most ≤ 4194304 }
    ensures { result ≡ number_said least most digits.now }
{
    if digits.is_empty() || digits.len() > 10 {
        return None;
    }
    let mut number: u32 = 0;
    for digit in digits {
        if !is_digit(*digit) || number > most {
            return None;
        }
        number = number * 10 + u32::from(*digit - b'0');
    }
    if least <= number && number <= most {
        Some(number)
    } else {
        None
    }
}
