// What the lines so far say, within the limits of the frame. Its methods are in the modules of this
// crate, each with what it is about.

ghost use Rattle.form.specs.inside.Steps.{Modest};

use form::Draft;

// A draft within the limits. That it is modest goes with it: so one line more can be counted, and the
// distances of its trailer fit.
#[derive(Clone, Copy)]
pub(crate) struct ModestDraft {
    pub(crate) draft: Draft,
    ghost modest: { Modest draft },
}
