//! Numbers.
ghost use Rattle.std.specs.Prelude.{◌≡◌};
ghost use Rattle.std.specs.List.{list_all};
ghost use Rattle.rb_words.specs.Numbers.{is_digit, number_in};

/// Returns whether the text has decimal digits alone.
fn is_of_digits(text: &str) -> bool
    ensures { result ≡ list_all is_digit text.now }
{
    text.bytes().all(|byte| byte.is_ascii_digit())
}

/// Reads a number of decimal digits that is at least `least` and at most `most`; `None` for any other text. A sign is no
/// digit, though std's `parse` takes one.
pub fn number_in(text: &str, least: u32, most: u32) -> Option<u32>
    ensures { result ≡ number_in least most text.now }
{
    if !is_of_digits(text) {
        return None;
    }
    match text.parse::<u32>() {
        Ok(n) => {
            if least <= n && n <= most {
                Some(n)
            } else {
                None
            }
        }
        Err(_) => None,
    }
}
