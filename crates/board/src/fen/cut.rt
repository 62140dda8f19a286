ghost use Rattle.std.specs.Prelude.{◌≡◌, ◌≤◌, ◌-◌, ◌==◌, length, position};
ghost use Rattle.std.specs.List.{before_first, after_first};
ghost use Rattle.board.specs.FenFaults.{behind, beginning};
ghost use Rattle.board.specs.Reading.{field};

fn find(text: &[u8], byte: u8) -> Option<usize>
    ensures { result ≡ position (λ b. b == byte) text.now }
{
    text.iter().position(|b| *b == byte)
}

/// What stands before the first such byte, and what behind it: all and nothing where there is none.
pub(super) fn cut(text: &[u8], separator: u8) -> (&[u8], &[u8])
    ensures before { result.0.now ≡ before_first (λ b. b == separator) text.now }
    ensures after { result.1.now ≡ after_first (λ b. b == separator) text.now }
{
    match find(text, separator) {
        Some(i) => (&text[..i], &text[i + 1..]),
        None => (text, &[]),
    }
}

/// What stands behind the first `n` spaces, or nothing where there are fewer.
fn after_spaces(text: &[u8], n: u8) -> &[u8]
    ensures is { result.now ≡ behind n text.now }
    ensures len { length result.now ≤ length text.now }
{
    if n == 0 {
        text
    } else {
        let (_, rest) = cut(text, b' ');
        after_spaces(rest, n - 1)
    }
}

/// The field with this number, counted from 1, and where it begins. A missing field is empty, and begins at the text's end.
pub(super) fn field_at(text: &[u8], n: u8) -> (&[u8], usize)
    requires { 1 ≤ n }
    ensures field { result.0.now ≡ field text.now n }
    ensures at { result.1 ≡ beginning text.now n }
{
    let rest = after_spaces(text, n - 1);
    let (field, _) = cut(rest, b' ');
    (field, text.len() - rest.len())
}
