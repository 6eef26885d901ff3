// Bytes written into lent text. Crate text_digits writes numbers the same way.
// A public writer writes at byte `at` where all fits, and says how many bytes; otherwise it leaves the text as it is.
#![tactic(auto)]

ghost use Rattle.std.specs.Prelude.{◌≡◌};
ghost use Rattle.text_write.specs.Put.{put_count, put_into};

// Writes the bytes of source.
#[tactic(auto, unfolding(crate::specs::Put::put_into, crate::specs::Put::put_count))]
pub fn put_bytes(text: &mut [u8], at: usize, source: &[u8]) -> Option<usize>
    ensures { (result ≡ put_count text.old at source.now) × (text.new ≡ put_into text.old at source.now) }
{
    let end = at.checked_add(source.len())?;
    if text.len() < end {
        return None;
    }
    text[at..end].copy_from_slice(source);
    Some(source.len())
}
