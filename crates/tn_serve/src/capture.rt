// What a command wrote, whole or not at all.
use std::alloc::{AllocError, Global};
use std::marker::Model;

/// What was written so far, seen as that text; None once memory for it was refused.
#[derive(Drop)]
pub struct Capture {
    text: Vec<u8>,
    /// Whether memory was refused.
    is_cut: bool,
}

impl Model for Capture {
    ghost use Rattle.std.specs.Prelude.{ℕ, List, Option};
    ghost use Rattle.std.specs.Coded.{coded_list, coded_ℕ, coded_option};
    ghost use Rattle.tn_serve.specs.Captures.{text_unless};

    ghost Value = { Option (List ℕ) };

    ghost coded = { coded_option (coded_list coded_ℕ) };

    ghost view = { λ c. text_unless c.is_cut c.text.items };
}

impl Capture {
    ghost use Rattle.std.specs.Prelude.{◌≡◌, ◌++◌, [], Some, None, OnOk, OnErr, IsSomeAnd, option_map};

    /// Nothing was written yet.
    pub fn new(alloc: Global) -> Capture
        ensures { result ≡ Some [] }
    {
        Capture {
            text: Vec::new(alloc),
            is_cut: false,
        }
    }

    /// Writes more. Nothing can be written any more once memory was refused.
    ///
    /// # Errors
    ///
    /// AllocError where memory is refused, or was.
    pub fn append(&mut self, bytes: &[u8]) -> Result<(), AllocError>
        ensures ok { OnOk result (IsSomeAnd self.old (λ text. self.new ≡ Some (text ++ bytes.now))) }
        ensures err { OnErr result (self.new ≡ None) }
    {
        if self.is_cut {
            return Err(AllocError);
        }
        if self.text.extend_from_slice(bytes).is_err() {
            self.is_cut = true;
            return Err(AllocError);
        }
        Ok(())
    }

    /// All that was written; None where memory for it was refused.
    pub fn into_text(self) -> Option<Vec<u8>>
        ensures { option_map (λ text. text.items) result ≡ self }
    {
        let Capture { text, is_cut } = self;
        if is_cut { None } else { Some(text) }
    }
}
