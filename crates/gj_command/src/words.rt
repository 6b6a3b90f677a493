//! The words of a command line.

ghost use Rattle.std.specs.Prelude.{◌≡◌, map, string_bytes, MatchOption, None, Some};
ghost use Rattle.gj_command.specs.Settings.{settings_of, build, is_folder};

/// The folder that the words name, where they are `build` and one folder.
pub fn folder_of(words: &[String]) -> Option<&str>
    ensures { MatchOption result
        (settings_of (map (λ w. string_bytes w) words.now) ≡ None)
        (λ folder. settings_of (map (λ w. string_bytes w) words.now) ≡ Some (build folder.now)) }
{
    match words {
        [command, folder] if command.as_str() == "build" && is_folder(folder.as_str()) => {
            Some(folder.as_str())
        }
        _ => None,
    }
}

/// Whether a word may name a folder: it isn't empty and doesn't begin with a dash.
fn is_folder(word: &str) -> bool
    ensures { result ≡ is_folder word.now }
{
    match word.as_bytes() {
        [] => false,
        [first, ..] => *first != b'-',
    }
}
