//! Prints the edits between two trees later than the trees were taken, and hands out their text in pieces: so a lock around a volume is
//! held only while the trees are taken.
//!
//! Invariant (`IsPair`, `IsText`): both trees may differ from a third one only at the noted keys, and the text, once it was printed, is that
//! of edits which make the second tree of the first.
ghost use Rattle.std.specs.Prelude.{◌≡◌, IfOk, IsSome, None, OnErr};
ghost use Rattle.call_compiler.specs.declared.indexes.Indexes.{Indexes};
ghost use Rattle.volume.specs.Differences.{AgreeBeside};
ghost use Rattle.delta.specs.Printers.{HandsOn};

use crate::edits_between::print_edits;
use change_log::Changes;
use pathkey::NoMemory;
use std::alloc::Global;
use std::marker::Model;
use volume::Frozen;

/// The edits that make one tree of another, handed out in pieces. Contracts see both trees, the text once it was printed, and how many of
/// its bytes were handed out.
#[derive(Drop)]
pub struct EditsPrinter {
    from: Frozen,
    to: Frozen,
    before: Changes,
    after: Changes,
    text: Option<Vec<u8>>,
    handed: usize,
}

impl Model for EditsPrinter {
    ghost use Rattle.delta.specs.Printers.{PEdits, IsPair, IsText, edits_code, text_items};

    ghost Value = { PEdits };

    ghost coded = { edits_code };

    ghost view = { λ p. record { from = p.from; to = p.to; text = text_items p.text; handed = p.handed } };

    ghost invariant = { λ p. IsPair p.before p.after p.from p.to × IsText p.from p.to (text_items p.text) p.handed };
}

impl EditsPrinter {
    /// A printer of the edits that make the tree `to` of `from`. `before` has all keys at which `from` may differ from some third tree, and
    /// `after` those at which `to` may (`Volume::changed_since`). It allocates nothing.
    pub fn new(from: Frozen, to: Frozen, before: Changes, after: Changes) -> EditsPrinter
        requires { (i : Indexes) × AgreeBeside before from.indexes i × AgreeBeside after to.indexes i }
        ensures { result ≡ record { from = from; to = to; text = None; handed = 0 } }
    {
        EditsPrinter {
            from,
            to,
            before,
            after,
            text: None,
            handed: 0,
        }
    }

    /// Writes the next bytes of the text to the start of the buffer, and returns how many they are: 0 only at the end of the text, and if
    /// the buffer is empty. The first call prints the text.
    ///
    /// It fails only if an allocation fails. Then nothing was handed out, and the call can be repeated.
    pub fn next(&mut self, alloc: Global, out: &mut [u8]) -> Result<usize, NoMemory>
        ensures piece { IfOk result (λ n. HandsOn self.old n self.new out.old out.new) }
        ensures refused { OnErr result ((self.new ≡ self.old) × (out.new ≡ out.old)) }
    {
        if self.text.is_none() {
            let text = print_edits(alloc, &self.from, &self.to, &self.before, &self.after)?;
            self.text = Some(text);
        }
        Ok(self.hand_out(out))
    }

    /// Writes the next bytes of the printed text to the start of the buffer, and returns how many they are.
    fn hand_out(&mut self, out: &mut [u8]) -> usize
        requires { IsSome self.old.text }
        ensures { HandsOn self.old result self.new out.old out.new }
    {
        let Some(text) = &self.text else {
            return 0;
        };
        let count = (text.len() - self.handed).min(out.len());
        out[..count].copy_from_slice(&text.as_slice()[self.handed..self.handed + count]);
        self.handed += count;
        count
    }
}
