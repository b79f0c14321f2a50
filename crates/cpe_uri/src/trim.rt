// Removes the colons at the end of a text: returns where the text ends without them.
ghost use Rattle.std.specs.Prelude.{◌≡◌, ◌≤◌, length, take};
ghost use Rattle.cpe_uri.specs.Canon.{trimmed};
ghost use Rattle.cpe_uri.specs.Requoting.{ends_in_colon};

fn ends_in_colon(text: &[u8], end: usize) -> bool
    requires { end ≤ length text.now }
    ensures { result ≡ ends_in_colon (take end text.now) }
{
    end > 0 && text[end - 1] == b':'
}

pub(crate) fn without_colons(text: &[u8], end: usize) -> usize
    requires { end ≤ length text.now }
    ensures within { result ≤ end }
    ensures trimmed { take result text.now ≡ trimmed 58 (take end text.now) }
{
    let mut end = end;
    while ends_in_colon(text, end) {
        end -= 1;
    }
    end
}
