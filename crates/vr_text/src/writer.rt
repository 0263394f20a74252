ghost use Rattle.std.specs.Prelude.{◌≡◌, [], ◌++◌, length, IfOk};
ghost use Rattle.hex.specs.Hex.{encode_lower};
ghost use Rattle.vr_text.specs.Words.{word, sized_bytes};

use itoa::{Buffer, Integer};
use std::alloc::Global;
use std::marker::Model;
use vr_base::{Bytes, NoMemory, Path};

/// A text that is written piece by piece. Contracts see it as its bytes.
#[derive(Drop)]
pub struct Writer {
    text: Vec<u8>,
}

impl Model for Writer {
    ghost use Rattle.std.specs.Prelude.{List, ℕ};

    ghost Value = { List ℕ };

    ghost view = { λ w. w.text.items };
}

impl Writer {
    /// A text without bytes.
    pub fn new(alloc: Global) -> Writer
        ensures { result ≡ [] }
    {
        Writer {
            text: Vec::new(alloc),
        }
    }

    /// A text that goes on from these bytes, which are not copied.
    pub fn on(bytes: Bytes) -> Writer
        ensures { result ≡ bytes }
    {
        Writer {
            text: bytes.into_vec(),
        }
    }

    /// Adds the bytes as they are.
    pub fn bytes(mut self, bytes: &[u8]) -> Result<Writer, NoMemory>
        ensures { IfOk result (λ text. text ≡ self ++ bytes.now) }
    {
        self.text.extend_from_slice(bytes)?;
        Ok(self)
    }

    /// Adds a space and a word.
    pub fn word(self, letters: &[u8]) -> Result<Writer, NoMemory>
        ensures { IfOk result (λ text. text ≡ self ++ word letters.now) }
    {
        self.bytes(b" ")?.bytes(letters)
    }

    /// Adds the decimal digits of a number.
    pub fn digits<N: Integer>(self, number: N) -> Result<Writer, NoMemory>
        ensures { IfOk result (λ text. text ≡ self ++ N.text number) }
    {
        let mut digits = Buffer::new();
        self.bytes(digits.format(number).as_bytes())
    }

    /// Adds a space and the decimal digits of a number.
    pub fn number<N: Integer>(self, number: N) -> Result<Writer, NoMemory>
        ensures { IfOk result (λ text. text ≡ self ++ word (N.text number)) }
    {
        self.bytes(b" ")?.digits(number)
    }

    /// Adds the bytes in lower-case hex digits.
    pub fn hex(mut self, bytes: &[u8]) -> Result<Writer, NoMemory>
        ensures { IfOk result (λ text. text ≡ self ++ encode_lower bytes.now) }
    {
        let start = self.text.len();
        let Some(end) = start.checked_add(2 * bytes.len()) else {
            return Err(NoMemory);
        };
        self.text.resize(end, 0)?;
        let _ = hex::encode_to_slice(bytes, &mut self.text[start..]);
        Ok(self)
    }

    /// Adds words and, after a space, the path that they speak of.
    #[tactic(auto, using(std::proofs::Common::append_assoc))]
    pub fn about(self, words: &[u8], path: &Path) -> Result<Writer, NoMemory>
        ensures { IfOk result (λ text. text ≡ self ++ (words.now ++ word path.now)) }
    {
        self.bytes(words)?.word(path.as_slice())
    }

    /// Adds the number of the bytes and their hex digits, each after a space, or a dash where there are no bytes.
    pub fn sized_bytes(self, bytes: &Bytes) -> Result<Writer, NoMemory>
        ensures { IfOk result (λ text. text ≡ self ++ sized_bytes bytes.now) }
    {
        let bytes = bytes.as_slice();
        let sized = self.number(bytes.len())?;
        if bytes.is_empty() {
            sized.word(b"-")
        } else {
            sized.bytes(b" ")?.hex(bytes)
        }
    }

    /// The bytes of the text, which are not copied.
    pub fn finish(self) -> Bytes
        ensures { result ≡ self }
    {
        Bytes::of(self.text)
    }
}
