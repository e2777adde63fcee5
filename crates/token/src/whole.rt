// The tests of a whole text that come before its tokens, offered here so that a reader over tokens needs nothing below them.
ghost use Rattle.lexicon.specs.Front.{Front};
ghost use Rattle.lexicon.specs.Utf8.{Encoded};

use lexicon::NotUtf8;
use space::front::front as dropped;
use utf8::utf8 as tested;

// Whether the text is UTF-8; if not, where the first bad sequence begins.
pub fn utf8(text: &[u8]) -> Result<(), NotUtf8>
    ensures { Encoded text.now result }
{
    tested(text)
}

// Where tokens begin: behind the byte order mark and the first line that are dropped.
pub fn front(text: &[u8]) -> usize
    ensures { Front text.now result }
{
    dropped(text)
}
