//! The clauses that stand, in one list of words.
ghost use Rattle.std.specs.Prelude.{◌≡◌, ◌≢◌, ◌⊎◌, ◌+◌, ◌%◌, ◌<◌, ◌≤◌, ℕ, length, slice_set, Bool, true, false, IsTrue};
ghost use Rattle.std.specs.Prelude.{IfNone, IfSome, IfOk, OnOk, slice_index};
ghost use Rattle.aig_parts.specs.Literal.{variable};
ghost use Rattle.aig_sat.specs.checker.Clause.{meets};
ghost use Rattle.aig_sat.specs.checker.Knowledge.{IsIn, IsWithout};
ghost use Rattle.aig_sat.specs.checker.Listing.{FindsAll, ListsAll};
ghost use Rattle.aig_sat.specs.checker.Words.{AreLiterals, AreNamed, Begins, IsAdded, IsClauseAt, IsLaidOut, IsLast};
ghost use Rattle.aig_sat.specs.checker.Words.{IsPut, KeepsMet, MeetsAll, RemovesNamed, Shrinks, StandsAt, literal_at};
ghost use Rattle.aig_sat.specs.checker.Words.{size_at};

use crate::checker::places::Places;
use aig_bytes::Memory;
use std::alloc::Global;

/// The first word of a clause that stands is at least this: this and the number of its literals. All other words are
/// below it.
pub(crate) const HEAD: u32 = 0x8000_0000;

/// How many words a clause has before its literals: the head, the next clause of its chain, and where among its literals
/// after the first two the last search for a free one ended.
pub(crate) const BEFORE: usize = 3;

/// The clauses that stand, by the place of their first word. A clause that is deleted loses its head, and its words are
/// never used again.
#[derive(Drop)]
pub(crate) struct Clauses {
    pub(crate) words: Vec<u32>,
    // For each variable a place before which no clause has it.
    pub(crate) starts: Vec<u32>,
    // Each variable that a clause has is below this.
    pub(crate) named: u32,
    // The clauses before the end `listed` by their literals; 0 where nothing is listed.
    pub(crate) places: Places,
    pub(crate) listed: usize,
    // How many words and places were read in search of clauses with a literal, since the last lists were made.
    read: usize,
    ghost laid_out: { IsLaidOut words.items },
    ghost begins: { Begins starts.items named words.items },
    ghost lists: { ListsAll places.heads.items places.links.items words.items listed },
    ghost within: { listed ≤ length words.items },
}

/// A clause that stands. If it is watched, then at its first two literals.
#[derive(Clone, Copy)]
pub(crate) struct Clause<'a> {
    pub(crate) literals: &'a [u32],
    /// Where among the literals after the first two the last search for a free one ended.
    pub(crate) searched: usize,
}

// Whether these can be literals of a clause.
fn are_literals(literals: &[u32]) -> bool
    ensures { IsTrue result → AreLiterals literals.now }
{
    for literal in literals {
        if *literal >= HEAD {
            return false;
        }
    }
    true
}

// A number that is above the variables of these literals, and not below another one.
fn above(literals: &[u32], named: u32) -> u32
    ensures more { named ≤ result }
    ensures all { AreNamed literals.now result }
{
    let mut above = named;
    for literal in literals {
        above = above.max(*literal / 2 + 1);
    }
    above
}

// Whether the literal is one of these.
pub(crate) fn has(literals: &[u32], literal: u32) -> bool
    ensures { result ≡ false → IsWithout literals.now literal }
{
    for other in literals {
        if *other == literal {
            return true;
        }
    }
    false
}

impl Clauses {
    /// No clauses over so many variables.
    pub(crate) fn new(alloc: Global, variables: usize) -> Result<Clauses, Memory>
        ensures { IfOk result (λ clauses. (values : ℕ → Bool) → MeetsAll values clauses.words.items) }
    {
        // No clause is at place 0, so that a chain can end with it.
        Ok(Clauses {
            words: vec![in alloc; 0; 1]?,
            starts: vec![in alloc; 0; variables]?,
            named: 0,
            places: Places::new(alloc, 0)?,
            listed: 0,
            read: 0,
        })
    }

    // Where the next variable begins: at the place of the next clause, if no clause has it yet.
    fn next_start(&self) -> u32
        ensures within { result ≤ length self.now.words.items }
        ensures early { length self.now.starts.items < self.now.named → result ≡ 0 }
    {
        if self.starts.len() < self.named as usize || self.words.len() >= HEAD as usize {
            return 0;
        }
        self.words.len() as u32
    }

    /// Adds a variable.
    pub(crate) fn add_variable(&mut self) -> Result<(), Memory>
        ensures { self.new.words.items ≡ self.old.words.items }
    {
        let start = self.next_start();
        self.starts.push(start)?;
        Ok(())
    }

    /// A place before which no clause has the variable of a literal.
    pub(crate) fn start(&self, literal: u32) -> usize
        ensures start { result ≡ slice_index self.now.starts.items (variable literal) }
        ensures begins { Begins self.now.starts.items self.now.named self.now.words.items }
    {
        match self.starts.get(literal as usize / 2) {
            Some(start) => *start as usize,
            None => 0,
        }
    }

    // The word at a place.
    #[inline]
    fn word(&self, place: usize) -> u32
        ensures { result ≡ slice_index self.now.words.items place }
    {
        match self.words.get(place) {
            Some(word) => *word,
            None => 0,
        }
    }

    /// How many words there are: each clause that stands is at a place below.
    pub(crate) fn len(&self) -> usize
        ensures { result ≡ length self.now.words.items }
    {
        self.words.len()
    }

    /// The clause at a place, if one stands there.
    #[inline]
    pub(crate) fn clause(&self, place: usize) -> Option<Clause<'_>>
        ensures some { IfSome result (λ clause. IsClauseAt self.now.words.items place clause.literals.now) }
        ensures none { IfNone result (StandsAt self.now.words.items place → ⊥) }
    {
        let head = self.word(place);
        if head < HEAD {
            return None;
        }
        let start = place + BEFORE;
        Some(Clause {
            literals: &self.words[start..start + (head - HEAD) as usize],
            searched: self.words[place + 2] as usize,
        })
    }

    /// The literals of the clause at a place, if one stands there.
    #[inline]
    pub(crate) fn literals(&self, place: usize) -> Option<&[u32]>
        ensures some { IfSome result (λ literals. IsClauseAt self.now.words.items place literals.now) }
        ensures none { IfNone result (StandsAt self.now.words.items place → ⊥) }
    {
        match self.clause(place) {
            Some(clause) => Some(clause.literals),
            None => None,
        }
    }

    /// The next clause of a clause's chain.
    pub(crate) fn next(&self, place: u32) -> u32 {
        self.word(place as usize + 1)
    }

    /// The number of the clause at a place, where steps have hints.
    pub(crate) fn number(&self, place: usize) -> u32
        ensures { place < 0x1_0000_0000 → result ≡ slice_index self.now.words.items (place + 1) }
    {
        self.word(place.saturating_add(1))
    }

    /// Puts a clause before another one in a chain.
    pub(crate) fn set_next(&mut self, place: u32, next: u32)
        ensures { KeepsMet self.old.words.items self.new.words.items }
    {
        if self.word(place as usize) >= HEAD {
            self.words[place as usize + 1] = next % HEAD;
        }
    }

    /// Exchanges two literals of a clause, if it has them, and keeps where the search among its literals ended.
    #[inline]
    pub(crate) fn exchange(&mut self, place: u32, one: usize, other: usize, searched: usize)
        ensures { Shrinks self.old.words.items self.new.words.items }
    {
        let place = place as usize;
        let size = self.word(place).saturating_sub(HEAD) as usize;
        if one < size && other < size {
            let literal = self.words[place + (BEFORE + one)];
            self.words[place + (BEFORE + one)] = self.words[place + (BEFORE + other)];
            self.words[place + (BEFORE + other)] = literal;
            self.words[place + 2] = (searched % HEAD as usize) as u32;
        }
    }

    // Adds the words of a clause, which does not stand yet.
    fn put(&mut self, next: u32, literals: &[u32]) -> Result<(), Memory>
        requires { AreLiterals literals.now }
        ensures met { KeepsMet self.old.words.items self.new.words.items }
        ensures starts { self.new.starts.items ≡ self.old.starts.items }
        ensures named { self.new.named ≡ self.old.named }
        ensures listed { self.new.listed ≡ self.old.listed }
        ensures ok { OnOk result (IsPut self.old.words.items literals.now self.new.words.items) }
        ensures number { OnOk result
            (slice_index self.new.words.items (length self.old.words.items + 1) ≡ next % 0x8000_0000) }
    {
        let before = [0, next % HEAD, 0];
        self.words.extend_from_slice(&before)?;
        self.words.extend_from_slice(literals)?;
        Ok(())
    }

    // Whether there is room for a clause of these literals.
    fn has_room(&self, literals: &[u32]) -> bool
        ensures room { IsTrue result → length self.now.words.items + (3 + length literals.now) < 0x8000_0000 }
        ensures literals { IsTrue result → AreLiterals literals.now }
    {
        self.words.len() < 0x4000_0000 && literals.len() < 0x3000_0000 && are_literals(literals)
    }

    // Lets the last clause stand.
    fn stand(&mut self, place: usize, size: u32)
        requires size { size < 0x8000_0000 }
        requires last { IsLast self.old.words.items place size }
        requires begun { (x : ℕ) → slice_index self.old.starts.items x ≤ place }
        requires unlisted { self.old.listed ≤ place }
        requires named { (k : ℕ) → k < size → variable (literal_at self.old.words.items place k) < self.old.named }
        ensures { self.new.words.items ≡ slice_set self.old.words.items place (0x8000_0000 + size) }
    {
        self.words[place] = HEAD + size;
    }

    /// Adds a clause and returns its place.
    pub(crate) fn add(&mut self, next: u32, literals: &[u32]) -> Result<u32, Memory>
        ensures met { (values : ℕ → Bool) → meets values literals.now ≡ true → MeetsAll values self.old.words.items
            → MeetsAll values self.new.words.items }
        ensures added { IfOk result (IsAdded self.old.words.items next literals.now self.new.words.items) }
    {
        if !self.has_room(literals) {
            return Err(Memory);
        }
        let place = self.words.len();
        self.named = above(literals, self.named);
        self.put(next, literals)?;
        self.stand(place, literals.len() as u32);
        Ok(place as u32)
    }

    // Finds the clause at a place, if it has a literal.
    fn find_at(&self, place: usize, literal: u32, found: &mut Vec<usize>) -> Result<(), Memory>
        ensures kept { (p : ℕ) → IsIn found.old.items p → IsIn found.new.items p }
        ensures found { OnOk result ((k : ℕ) → StandsAt self.now.words.items place
            → k < size_at self.now.words.items place → literal_at self.now.words.items place k ≡ literal
            → IsIn found.new.items place) }
    {
        if let Some(literals) = self.literals(place) {
            if has(literals, literal) {
                found.push(place)?;
            }
        }
        Ok(())
    }

    // Finds the clauses from a start on that have a literal, the last one first.
    fn scan(&self, start: usize, literal: u32, found: &mut Vec<usize>) -> Result<(), Memory>
        requires { (p k : ℕ) → p < start → StandsAt self.now.words.items p → k < size_at self.now.words.items p
            → literal_at self.now.words.items p k ≢ literal }
        ensures { OnOk result (FindsAll self.now.words.items literal found.new.items) }
    {
        found.clear();
        let end = self.words.len();
        for read in 0..end.saturating_sub(start) {
            self.find_at(end - 1 - read, literal, found)?;
        }
        Ok(())
    }

    // Begins with new lists, where there are none or too much of them was read.
    fn renew_lists(&mut self) -> Result<(), Memory>
        ensures { self.new.words.items ≡ self.old.words.items }
    {
        if self.listed == 0 || self.read >= self.words.len() {
            self.listed = 0;
            self.read = 0;
            self.places.clear(self.starts.len().saturating_mul(2))?;
        }
        Ok(())
    }

    // Lists all clauses that stand.
    fn list_all(&mut self) -> Result<(), Memory>
        ensures same { self.new.words.items ≡ self.old.words.items }
        ensures all { OnOk result (ListsAll self.new.places.heads.items self.new.places.links.items
            self.new.words.items (length self.new.words.items)) }
    {
        self.renew_lists()?;
        self.places.add_from(&self.words, self.listed)?;
        self.listed = self.words.len();
        Ok(())
    }

    /// Finds the place of each clause that stands and has a literal, the last one first. It may find other places. It
    /// goes through the words until it has read as many as there are. From then on clauses are listed by their literals,
    /// and the lists are made anew where as many places of them were read: those of deleted clauses are gone then.
    pub(crate) fn find(&mut self, literal: u32, found: &mut Vec<usize>) -> Result<(), Memory>
        ensures same { self.new.words.items ≡ self.old.words.items }
        ensures all { OnOk result (FindsAll self.new.words.items literal found.new.items) }
    {
        let start = self.start(literal);
        let words = self.words.len().saturating_sub(start);
        let left = self.words.len().saturating_sub(self.read);
        if self.listed > 0 || words > left {
            self.list_all()?;
            self.places.find(literal, found)?;
            self.read = self.read.saturating_add(found.len());
            return Ok(());
        }
        self.read = self.read.saturating_add(words);
        self.scan(start, literal, found)
    }

    /// Deletes a clause.
    pub(crate) fn remove(&mut self, place: u32)
        ensures met { KeepsMet self.old.words.items self.new.words.items }
        ensures removed { (self.new.words.items ≡ self.old.words.items) ⊎ (StandsAt self.old.words.items place
            × (self.new.words.items ≡ slice_set self.old.words.items place 0)) }
    {
        if self.word(place as usize) >= HEAD {
            self.words[place as usize] = 0;
        }
    }

    /// Deletes a clause with a number.
    pub(crate) fn remove_named(&mut self, place: u32, id: u32)
        ensures met { KeepsMet self.old.words.items self.new.words.items }
        ensures named { RemovesNamed self.old.words.items place id self.new.words.items }
    {
        if self.number(place as usize) == id {
            self.remove(place);
        }
    }
}
