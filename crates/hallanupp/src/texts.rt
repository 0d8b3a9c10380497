// The desk's text of any input into a lent buffer.
ghost use Rattle.std.specs.Prelude.{◌≡◌};
ghost use Rattle.text.specs.TextAnswered.{text_length, with_text};

#[unsafe(no_mangle)]
pub extern "C" fn hallanupp_desk_text(input: &[u8], out: &mut [u8]) -> usize
    ensures length { result ≡ text_length input.now out.old }
    ensures text { out.new ≡ with_text input.now out.old }
{
    text::desk_text(input, out)
}
