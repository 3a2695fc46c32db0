ghost use Rattle.std.specs.Prelude.{◌≡◌};
ghost use Rattle.sheet.specs.Numbers.{ReadsNumber, number_shape};

// The longest number, 4294967295, has ten digits.
const MAX_DIGITS: usize = 10;

// Whether the bytes are neither too few nor too many, and do not begin with a zero that leads.
fn has_number_shape(digits: &[u8]) -> bool
    ensures { result ≡ number_shape digits.now }
{
    match digits {
        [] => false,
        [_] => true,
        [first, ..] => *first != b'0' && digits.len() <= MAX_DIGITS,
    }
}

// The number that these bytes write in decimal digits, without a leading zero, if they write one of 32 bits.
#[tactic(auto, using(crate::proofs::Decimals::decimal_shape, crate::proofs::Decimals::decimal_digit_at))]
pub fn number(digits: &[u8]) -> Option<u32>
    ensures { ReadsNumber digits.now result }
{
    if !has_number_shape(digits) {
        return None;
    }
    let mut value: u64 = 0;
    for b in digits {
        if !b.is_ascii_digit() {
            return None;
        }
        value = value * 10 + u64::from(*b - b'0');
    }
    u32::try_from(value).ok()
}
