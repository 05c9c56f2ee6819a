ghost use Rattle.std.specs.Prelude.{◌≡◌, ◌≤◌, length, true};
ghost use Rattle.hart_step.specs.DecodedCode.{Shows};
ghost use Rattle.hart_rounds.specs.Starts.{Start, keeps_log};

use crate::log_form::LogForm;
use hart_step::{DecodedCode, Hart};
use pages::Pages;
use round_schedule::MOST_HARTS;
use std::marker::Model;

/// What the parallel phase of a round starts from: guest memory with its decoded code, and the state and the
/// quota of each hart. The phase only reads it.
#[derive(Drop)]
pub struct RoundStart<'a> {
    pages: &'a Pages,
    code: &'a DecodedCode,
    harts: &'a [Hart],
    quotas: &'a [u32],
    // What becomes of the harts' accesses.
    form: LogForm,
}

impl<'a> Model for RoundStart<'a> {
    ghost Value = { Start };

    ghost view = { λ s. record {
      memory = s.pages.now.memory;
      quotas = s.quotas.now;
      harts = s.harts.now;
      logs = keeps_log s.form;
    } };

    ghost invariant = { λ s. (length s.quotas.now ≡ length s.harts.now) × (length s.harts.now ≤
        64) × Shows s.pages.now.memory s.code.now.first s.code.now.instructions };
}

impl<'a> RoundStart<'a> {
    /// A round of at most 64 harts on this memory, with a quota for each. The harts' accesses are logged.
    pub fn new(
        pages: &'a Pages,
        code: &'a DecodedCode,
        harts: &'a [Hart],
        quotas: &'a [u32],
    ) -> RoundStart<'a>
        requires quotas { length quotas.now ≡ length harts.now }
        requires few { length harts.now ≤ MOST_HARTS }
        requires shows { Shows pages.now.memory code.now.first code.now.instructions }
        ensures { result ≡ record {
          memory = pages.now.memory;
          quotas = quotas.now;
          harts = harts.now;
          logs = true;
        } }
    {
        RoundStart {
            pages,
            code,
            harts,
            quotas,
            form: LogForm::Logged,
        }
    }

    /// The same start, of a round whose harts' accesses are counted or logged in this form.
    pub fn with_form(self, form: LogForm) -> RoundStart<'a>
        ensures { result ≡ record self.entry { logs = keeps_log form } }
    {
        RoundStart { form, ..self }
    }

    /// What becomes of the harts' accesses.
    pub fn form(&self) -> LogForm
        ensures { keeps_log result ≡ self.now.logs }
    {
        self.form
    }

    /// Guest memory.
    pub fn pages(&self) -> &'a Pages
        ensures { result.now.memory ≡ self.now.memory }
    {
        self.pages
    }

    /// The decoded words of a stretch of its code.
    pub fn code(&self) -> &'a DecodedCode
        ensures { Shows self.now.memory result.now.first result.now.instructions }
    {
        self.code
    }

    /// The harts, of which there are at most 64.
    pub fn harts(&self) -> &'a [Hart]
        ensures harts { result.now ≡ self.now.harts }
        ensures few { length result.now ≤ 64 }
    {
        self.harts
    }

    /// The quota of each hart.
    pub fn quotas(&self) -> &'a [u32]
        ensures quotas { result.now ≡ self.now.quotas }
        ensures sized { length result.now ≡ length self.now.harts }
    {
        self.quotas
    }
}
