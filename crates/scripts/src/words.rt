// Lines and the words that they begin with.
ghost use Rattle.std.specs.Prelude.{◌≡◌};
ghost use Rattle.std.specs.Option.{option_copied};
ghost use Rattle.scripts.specs.Words.{after as rest};

// What follows the words that the line begins with.
pub(crate) fn after<'a>(line: &'a [u8], words: &[u8]) -> Option<&'a [u8]>
    ensures { option_copied result ≡ rest words.now line.now }
{
    line.strip_prefix(words)
}
