// Document 01, operation 5: where a new object's extent starts, over any step. One pass over the objects: the gap at
// the quarter's start, then the one at each extent's end, against the best so far.
#![tactic(auto)]

ghost use Rattle.std.specs.Prelude.{◌≡◌, ◌||◌, cond, ◌+◌, ◌-◌, ◌*◌, ◌/◌, ◌^◌, ◌<◌, map, min, leb};
ghost use Rattle.std.specs.List.{fold, list_all, zip};
ghost use Rattle.lemmas.specs.Options.{option_of};
ghost use Rattle.lemmas.specs.Tests.{◌under◌};
ghost use Rattle.rules.specs.declared.Object.{Object};
ghost use Rattle.rules.specs.BestFit.{free, next, nearer, better, width, best_fit};
ghost use Rattle.state.specs.Table.{objects_in};
ghost use Rattle.placing.specs.Placing.{Held, gap_of, placed_option, is_outside, candidate, tried, chosen};

// What is asked for: an extent of `size` bytes in a quarter, at a multiple of the step.
#[derive(Clone, Copy)]
struct Search<'a> {
    step: u32,
    quarter: u32,
    size: u32,
    table: &'a [u32],
}

// A gap that takes the extent: the bytes from one place up to another, and where among them the extent starts.
#[derive(Clone, Copy)]
struct Gap {
    from: u32,
    to: u32,
    start: u32,
}

impl Gap {
    // How many bytes it has.
    fn width(self) -> u32
        ensures { result ≡ width (gap_of self) }
    {
        self.to.saturating_sub(self.from)
    }

    // The smaller one, the lower start among equals.
    #[tactic(auto, unfolding(rules::specs::BestFit::better))]
    fn is_better(self, other: Gap) -> bool
        ensures { result ≡ better (gap_of self) (gap_of other) }
    {
        let a = self.width();
        let b = other.width();
        a < b || (a == b && self.from < other.from)
    }
}

// Whether a byte is not in an extent.
fn is_outside(start: u32, size: u32, at: u32) -> bool
    ensures { result ≡ is_outside start size at }
{
    at < start || size <= at - start
}

// The start of an extent where it lies from a place on and before the end, else the end.
fn nearest(from: u32, end: u32, start: u32) -> u32
    ensures { result ≡ cond (leb from start) (min start end) end }
{
    if from <= start { start.min(end) } else { end }
}

// Whether a byte is in none of the extents.
fn is_vacant(starts: &[u32], sizes: &[u32], at: u32) -> bool
    ensures { result ≡ list_all (λ p. is_outside p.0 p.1 at) (zip starts.now sizes.now) }
{
    starts
        .iter()
        .zip(sizes)
        .all(|(start, size)| is_outside(*start, *size, at))
}

// Where the bytes from a place on end: where the next extent starts, or at the quarter's end.
fn end_from(starts: &[u32], quarter: u32, from: u32) -> u32
    ensures { result ≡ fold (λ end start. cond (leb from start) (min start end) end) quarter starts.now }
{
    starts
        .iter()
        .fold(quarter, |end, start| nearest(from, end, *start))
}

// The first multiple of a step from a place on; 0 where the step is 0.
fn first_multiple(step: u32, from: u32) -> u64
    ensures { (result ≡ (from + (step - 1)) / step * step) × (result < 2 ^ 33) }
{
    if step == 0 {
        return 0;
    }
    u64::from(from).next_multiple_of(u64::from(step))
}

impl Search<'_> {
    // The gap from a place on, if there is one and it takes the extent.
    fn gap_at(self, from: u32) -> Option<Gap>
        ensures { result ≡ candidate self.entry.step self.entry.quarter (objects_in self.entry.table.now) self.entry.size from }
    {
        let starts = state::starts(self.table);
        let to = end_from(starts, self.quarter, from);
        if to <= from || !is_vacant(starts, state::sizes(self.table), from) {
            return None;
        }
        let start = first_multiple(self.step, from);
        if u64::from(to) < start + u64::from(self.size) {
            return None;
        }
        Some(Gap {
            from,
            to,
            start: start as u32,
        })
    }

    // The better of the best so far and the gap from a place on.
    fn better_of(self, best: Option<Gap>, from: u32) -> Option<Gap>
        ensures { (b : Held) → best ≡ placed_option self.entry.step b
            → result ≡ placed_option self.entry.step (tried self.entry.step self.entry.quarter (objects_in self.entry.table.now) self.entry.size b from) }
    {
        let Some(gap) = self.gap_at(from) else {
            return best;
        };
        match best {
            Some(other) if !gap.is_better(other) => best,
            _ => Some(gap),
        }
    }

    // The best gap.
    fn best_gap(self) -> Option<Gap>
        ensures { result ≡ placed_option self.entry.step (chosen self.entry.step self.entry.quarter (objects_in self.entry.table.now) self.entry.size) }
    {
        let mut best = self.better_of(None, 0);
        for (start, size) in state::starts(self.table)
            .iter()
            .zip(state::sizes(self.table))
        {
            if let Some(end) = start.checked_add(*size) {
                best = self.better_of(best, end);
            }
        }
        best
    }
}

// The start of the smallest gap that takes the size from a multiple of the step on, lowest start among equals; counted from the
// quarter's start. None: row 20.
pub fn best_fit(step: u32, quarter: u32, size: u32, table: &[u32]) -> Option<u32>
    ensures { option_of result ≡ best_fit step quarter (objects_in table.now) size }
{
    let search = Search {
        step,
        quarter,
        size,
        table,
    };
    search.best_gap().map(|gap| gap.start)
}
