// One search for every kind of entry: the last entry of a slice that suits a question.
#![tactic(auto)]

ghost use Rattle.std.specs.Prelude.{◌≡◌, Bool};
ghost use Rattle.lookup.specs.Last.{IsLast, last_match};

// What can be looked up. Each kind of entry has its own kind of question.
pub trait Entry {
    type Question;

    ghost suits: { Self → Self.Question → Bool };

    fn suits(&self, question: &Self::Question) -> bool
        ensures { result ≡ suits self.now question.now };
}

// Where the last entry that suits the question stands, or none where no entry does.
pub fn last_match<T: Entry>(entries: &[T], question: &T::Question) -> Option<usize>
    ensures place { result ≡ last_match (λ x. T.suits x question.now) entries.now }
    ensures last { IsLast (λ x. T.suits x question.now) entries.now result }
{
    last_suiting(entries, question)
}

// The search itself, apart from the proof that only one place can keep this law.
fn last_suiting<T: Entry>(entries: &[T], question: &T::Question) -> Option<usize>
    ensures { IsLast (λ x. T.suits x question.now) entries.now result }
{
    entries.iter().rposition(|entry| entry.suits(question))
}
