// One line: its first word, whether it may stand there and whether there may be one more of its
// kind, its fields, and what it makes of the draft.

ghost use Rattle.std.specs.Prelude.{true, ◌≡◌, ℕ, ◌≤◌, length, drop};
ghost use Rattle.form.specs.Words.{is_word};
ghost use Rattle.form.specs.Fields.{spelled};
ghost use Rattle.form.specs.Reading.{rank as rank_of, in_order, has_room, with_line, start as start_of, keyword_in, keywords, line_of, read_line};
ghost use Rattle.tables.specs.inside.Steps.{said_line, SaidWithin, told_line, ToldWithin};

use crate::modest::ModestDraft;
use fields::fill;
use form::{Draft, Expected, Keyword, Unlike, ends_line, gap_end, is_word};

// The words of the form, in the order of their lines.
const KEYWORDS: [Keyword; 8] = [
    Keyword::Dated,
    Keyword::Classes,
    Keyword::Variables,
    Keyword::Letter,
    Keyword::Entry,
    Keyword::Context,
    Keyword::Transition,
    Keyword::Decision,
];

// The rank of a line: none stands after one of a higher rank.
pub(crate) fn rank(keyword: Keyword) -> u8
    ensures { result ≡ rank_of keyword }
{
    match keyword {
        Keyword::Dated => 1,
        Keyword::Classes => 2,
        Keyword::Variables => 3,
        Keyword::Letter => 4,
        Keyword::Entry => 5,
        Keyword::Context => 6,
        Keyword::Transition => 7,
        Keyword::Decision => 8,
    }
}

// Whether such a line may stand after this stage.
fn in_order(draft: Draft, keyword: Keyword) -> bool
    ensures { result ≡ in_order draft keyword }
{
    let stage = draft.stage;
    match keyword {
        Keyword::Dated => stage == 0,
        Keyword::Classes => stage <= 1,
        Keyword::Variables => stage == 2,
        Keyword::Letter => matches!(stage, 3..=4),
        Keyword::Entry => matches!(stage, 3..=5),
        Keyword::Context => matches!(stage, 3..=6),
        Keyword::Transition => matches!(stage, 3..=7),
        Keyword::Decision => matches!(stage, 3..=8),
    }
}

// Whether there may be one more such line.
fn has_room(draft: Draft, keyword: Keyword) -> bool
    ensures { result ≡ has_room draft keyword }
{
    match keyword {
        Keyword::Dated | Keyword::Classes | Keyword::Variables => true,
        Keyword::Letter => draft.letters < 63,
        Keyword::Entry => draft.entries < 1199,
        Keyword::Context => draft.contexts < 5,
        Keyword::Transition => draft.transitions < draft.variables,
        Keyword::Decision => draft.decisions < 20,
    }
}

// The word of the form that stands there.
fn keyword_at(line: &[u8], at: usize) -> Option<Keyword>
    requires { at ≤ length line.now }
    ensures { result ≡ keyword_in (drop at line.now) keywords }
{
    for keyword in KEYWORDS {
        if is_word(line, at, keyword.word()) {
            return Some(keyword);
        }
    }
    None
}

impl ModestDraft {
    // The draft before any line.
    pub(crate) fn first() -> Self
        ensures { result.draft ≡ start_of }
    {
        let draft = Draft {
            stage: 0,
            dated: false,
            classes: 0,
            variables: 0,
            letters: 0,
            entries: 0,
            contexts: 0,
            transitions: 0,
            decisions: 0,
        };
        ModestDraft { draft }
    }

    // The draft with one line more, whose first byte is `n`.
    #[tactic(auto, unfolding(form::specs::Reading::with_line))]
    pub(crate) fn with_line(self, keyword: Keyword, n: u8) -> Draft
        ensures { result ≡ with_line self.draft keyword n }
    {
        let draft = Draft {
            stage: rank(keyword),
            ..self.draft
        };
        match keyword {
            Keyword::Dated => Draft {
                dated: true,
                ..draft
            },
            Keyword::Classes => Draft {
                classes: u16::from(n),
                ..draft
            },
            Keyword::Variables => Draft {
                variables: u16::from(n),
                ..draft
            },
            Keyword::Letter => Draft {
                letters: draft.letters + 1,
                ..draft
            },
            Keyword::Entry => Draft {
                entries: draft.entries + 1,
                ..draft
            },
            Keyword::Context => Draft {
                contexts: draft.contexts + 1,
                ..draft
            },
            Keyword::Transition => Draft {
                transitions: draft.transitions + 1,
                ..draft
            },
            Keyword::Decision => Draft {
                decisions: draft.decisions + 1,
                ..draft
            },
        }
    }

    // The line whose first word stands there: its record's bytes are put into `rec`.
    fn line_of(
        self,
        keyword: Keyword,
        line: &[u8],
        at: usize,
        rec: &mut [u8; 64],
    ) -> Result<(), Unlike>
        requires { (at ≤ length line.now) × (is_word (spelled keyword) (drop at line.now) ≡ true) }
        ensures { (said_line self.draft keyword line.now rec.new result ≡ line_of self.draft keyword (drop at line.now)) × SaidWithin line.now result }
    {
        if !in_order(self.draft, keyword) {
            return Err(Unlike {
                expected: Expected::Line(self.draft.stage),
                at,
            });
        }
        if !has_room(self.draft, keyword) {
            return Err(Unlike {
                expected: Expected::Fewer,
                at,
            });
        }
        let next = fill(self.draft, keyword, line, at + keyword.word().len(), rec)?;
        let end = gap_end(line, next);
        if ends_line(line, end) {
            Ok(())
        } else {
            Err(Unlike {
                expected: Expected::LineEnd,
                at: end,
            })
        }
    }

    // The word of the record that a line tells, which is put into `rec`, or nothing.
    pub(crate) fn read_line(
        self,
        line: &[u8],
        rec: &mut [u8; 64],
    ) -> Result<Option<Keyword>, Unlike>
        ensures { (told_line self.draft line.now rec.new result ≡ read_line self.draft line.now) × ToldWithin line.now result }
    {
        let at = gap_end(line, 0);
        if ends_line(line, at) {
            return Ok(None);
        }
        let Some(keyword) = keyword_at(line, at) else {
            return Err(Unlike {
                expected: Expected::Line(self.draft.stage),
                at,
            });
        };
        self.line_of(keyword, line, at, rec)?;
        Ok(Some(keyword))
    }
}
