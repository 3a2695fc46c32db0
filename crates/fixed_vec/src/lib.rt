// A list with a fixed number of places, which lie in the value itself: it takes no memory but its own, and it can be copied.
#![tactic(auto)]

ghost use Rattle.std.specs.Prelude.{◌≡◌, ◌<◌, ◌≤◌, [], ◌∷◌, ◌++◌, length, OnErr, OnOk, MatchResult, slice_set};
ghost use Rattle.fixed_vec.specs.Listed.{places};

use std::marker::Model;

#[derive(Clone, Copy)]
pub struct FixedVec<T, const N: usize> {
    places: [T; N],
    len: usize,
}

// Clauses speak of the elements, and of how many places there are. Of what lies in the unused ones they say at most that
// it is as it was.
impl<T, const N: usize> Model for FixedVec<T, N> {
    ghost use Rattle.std.specs.Prelude.{◌≡◌, ◌≤◌, ◌++◌, length, take, drop};
    ghost use Rattle.std.proofs.Common.{arith, take-append-drop, length-take-le};
    ghost use Rattle.fixed_vec.specs.Listed.{Listed, listed_code};

    ghost Value = { Listed T };

    ghost coded = { listed_code T.code };

    ghost view = { λ v. record { items = take v.len v.places; spare = drop v.len v.places } };

    ghost invariant = { λ v. (v.len ≤ N) × (length v.places ≡ N) };

    ghost inverse = { λ l. record { places = l.items ++ l.spare; len = length l.items } };

    ghost inverse_ok = { λ v h i. record {
      places = take-append-drop v.len v.places i;
      len = length-take-le v.len v.places (omega (arith, h.0, h.1)) i;
    } };
}

// There are fewer places than elements.
#[derive(Clone, Copy, Debug, PartialEq, Eq)]
pub struct Full;

impl<T: Copy, const N: usize> FixedVec<T, N> {
    // No elements. The unused places hold `blank`.
    pub fn new(blank: T) -> Self
        ensures empty { result.items ≡ [] }
        ensures whole { length (places result) ≡ N }
    {
        FixedVec {
            places: [blank; N],
            len: 0,
        }
    }

    // A copy of these elements, if there are places for them. The unused places hold `blank`.
    pub fn from_slice(elements: &[T], blank: T) -> Result<Self, Full>
        ensures { MatchResult result (λ v. (v.items ≡ elements.now) × (length elements.now ≤ N) × (length (places v) ≡ N)) (λ _. N < length elements.now) }
    {
        if elements.len() > N {
            return Err(Full);
        }
        let mut places = [blank; N];
        places[..elements.len()].copy_from_slice(elements);
        Ok(FixedVec {
            places,
            len: elements.len(),
        })
    }

    pub fn len(&self) -> usize
        ensures count { result ≡ length self.now.items }
        ensures within { result ≤ N }
    {
        self.len
    }

    pub fn as_slice(&self) -> &[T]
        ensures { result.now ≡ self.now.items }
    {
        &self.places[..self.len]
    }

    // Adds an element at the end, if there is a place for it.
    pub fn push(&mut self, element: T) -> Result<(), Full>
        ensures room { OnOk result (length self.old.items < N) }
        ensures added { OnOk result (self.new.items ≡ self.old.items ++ element ∷ []) }
        ensures full { OnErr result (length self.old.items ≡ N) }
        ensures unchanged { OnErr result (self.new ≡ self.old) }
        ensures whole { length (places self.new) ≡ N }
    {
        if self.len == N {
            return Err(Full);
        }
        self.places[self.len] = element;
        self.len += 1;
        Ok(())
    }

    // Puts an element in the place of another. Where the list has no such place, nothing changes.
    #[tactic(auto, using(crate::proofs::Places::take_set_below))]
    pub fn set(&mut self, place: usize, element: T)
        ensures items { self.new.items ≡ slice_set self.old.items place element }
        ensures spare { self.new.spare ≡ self.old.spare }
    {
        if place < self.len {
            self.places[place] = element;
        }
    }
}
