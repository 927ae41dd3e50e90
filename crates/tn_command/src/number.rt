// Numbers in the words of the command line.
ghost use Rattle.std.specs.Prelude.{◌≡◌, ◌==◌, SomeIff, slice_index};
ghost use Rattle.std.specs.Str.Parse.{digits_value};
ghost use Rattle.tn_command.specs.Numbers.{IsLongNumber, IsPlainNumber};

/// Whether a plus sign is first.
fn has_plus(text: &str) -> bool
    ensures { result ≡ (slice_index text.now 0 == 43) }
{
    !text.is_empty() && text.as_bytes()[0] == b'+'
}

/// The number that decimal digits write, below 2^32; None of anything else: of a sign, of another base, of
/// digits with something between them.
pub fn plain_number(text: &str) -> Option<u32>
    ensures { SomeIff result (IsPlainNumber text.now) (digits_value 10 text.now) }
{
    if has_plus(text) {
        return None;
    }
    text.parse::<u32>().ok()
}

/// The same, below 2^64.
pub fn long_number(text: &str) -> Option<u64>
    ensures { SomeIff result (IsLongNumber text.now) (digits_value 10 text.now) }
{
    if has_plus(text) {
        return None;
    }
    text.parse::<u64>().ok()
}
