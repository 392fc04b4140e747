//! What has a text, how long it is, and the text written.
ghost use Rattle.std.specs.Prelude.{◌≡◌, ℕ, ◌^◌, ◌<◌, List, length};
ghost use Rattle.writing.specs.Places.{write_answer, after_write};
ghost use Rattle.writing.specs.Outputs.{Puts};
ghost use Rattle.writing.specs.Texts.{text_if, most_if};

use crate::output::Output;
use refusal::Refusal;

/// What is written as one text.
pub trait Text {
    ghost text: { Self → List ℕ };

    // How long the text is at most.
    ghost most: { Self → ℕ };

    /// Adds the text to the output.
    fn put(&self, out: &mut Output)
        ensures { Puts (most self.now) out.old (text self.now) out.new };
}

/// Nothing, or a text.
impl<T: Text> Text for Option<T> {
    ghost text = { text_if T.text };

    ghost most = { most_if T.most };

    fn put(&self, out: &mut Output) {
        if let Some(text) = self {
            text.put(out);
        }
    }
}

/// How long a text is.
pub fn measure<T: Text>(text: &T) -> u128
    requires { T.most text.now < 2 ^ 128 }
    ensures { result ≡ length (T.text text.now) }
{
    let mut out = Output::new(&mut []);
    text.put(&mut out);
    out.len
}

/// Writes a text at the start of the output, and answers its length; 33 where the output is shorter, which is then left as it
/// was.
pub fn write<T: Text>(text: &T, out: &mut [u8]) -> Result<usize, Refusal>
    requires { T.most text.now < 2 ^ 128 }
    ensures answer { result ≡ write_answer (T.text text.now) out.old }
    ensures after { out.new ≡ after_write (T.text text.now) out.old }
{
    let len = measure(text);
    if len > out.len() as u128 {
        return Err(Refusal::OutputTooShort);
    }
    text.put(&mut Output::new(out));
    Ok(len as usize)
}
