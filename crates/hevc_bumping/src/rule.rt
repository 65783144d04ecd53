//! When bumping goes on.
ghost use Rattle.std.specs.Prelude.{◌≡◌};
ghost use Rattle.hevc_dpb.specs.Plain.{HaveLatency};
ghost use Rattle.hevc_dpb.specs.Views.{stored_entries, buffer_of};
ghost use Rattle.hevc_bumping.specs.Rules.{holds};

use hevc_dpb::{Dpb, Limits};

/// When bumping goes on.
#[derive(Clone, Copy)]
pub(crate) enum Rule {
    /// As additional bumping does, once a picture is stored (C.5.2.3).
    Additional(Limits),
    /// As before a picture is decoded (C.5.2.2).
    ForRoom(Limits),
    /// As long as a picture is needed for output.
    Always,
}

impl Rule {
    /// Whether it asks for an output.
    pub(crate) fn holds<H: Copy>(&self, dpb: &Dpb<H>) -> bool
        requires { HaveLatency (stored_entries dpb.now) }
        ensures { result ≡ holds self.now (buffer_of dpb.now) }
    {
        match self {
            Rule::Additional(limits) => dpb.needs_additional_bumping(limits),
            Rule::ForRoom(limits) => dpb.needs_bumping(limits),
            Rule::Always => true,
        }
    }
}
