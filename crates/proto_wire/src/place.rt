//! Where in a message a part of it is.

ghost use Rattle.std.specs.Prelude.{◌≡◌, ◌≢◌, ◌<◌, ◌≤◌, ◌∷◌, length, slice_get, take, MatchBool, MatchOption};
ghost use Rattle.proto_wire.specs.Places.{HasRoom, BeginsWith, is_cut_short, named_field, path_at, path_of, step_in, steps_in};

/// A step from a message to a part of it: the number of the field that has the part, and its position. Positions
/// count all fields of the message. Payloads that merge, as those of a oneof's member do, have position 0.
#[derive(Clone, Copy, PartialEq, Eq, Debug)]
pub struct Step {
    pub number: u32,
    pub position: u32,
}

/// How many steps a place has room for.
pub const MOST_STEPS: usize = 6;

// A number of a field that has room in a step is below this one.
const NUMBERS: u32 = 256;

// A position that has room in a step is below this one.
const POSITIONS: usize = 16_777_216;

// The end of a place that was cut short; it is no field's number.
const CUT_SHORT: u32 = 536_870_912;

/// A part of a message: the outermost steps to it, at most six, and the field of it that is named. A place that
/// was cut short names a part further out, without a field.
#[derive(Clone, Copy, PartialEq, Eq, Debug)]
pub struct Place {
    // A word for each step, the outermost first, and 0 after the last step.
    steps: [u32; MOST_STEPS],
    // The number of a field, 0 for none, or `CUT_SHORT`.
    end: u32,
}

impl Place {
    /// The message itself if the number is 0, or its field of this number.
    pub(crate) fn at(number: u32) -> Place
        ensures { path_of result ≡ path_at number }
    {
        Place {
            steps: [0; MOST_STEPS],
            end: number,
        }
    }

    /// The same part, of the message that has this one in the field of this number at this position.
    pub(crate) fn inside(self, number: u32, position: usize) -> Place
        ensures { BeginsWith number position (path_of self) (path_of result) }
    {
        let Some(word) = word_of(number, position) else {
            return Place::at(CUT_SHORT);
        };
        let steps = with_first(word, &self.steps);
        if is_full(&self.steps) {
            return Place {
                steps,
                end: CUT_SHORT,
            };
        }
        Place {
            steps,
            end: self.end,
        }
    }

    /// The step with this index; the outermost has index 0.
    pub fn step(&self, index: usize) -> Option<Step>
        ensures { result ≡ slice_get (path_of self.now).steps index }
    {
        for (place, word) in self.steps.iter().enumerate() {
            if *word == 0 {
                return None;
            }
            if place == index {
                return Some(step_in(*word));
            }
        }
        None
    }

    /// The field of the part that is named, if one is.
    pub fn field(&self) -> Option<u32>
        ensures { result ≡ named_field (path_of self.now).end }
    {
        if self.end == 0 || self.end == CUT_SHORT {
            return None;
        }
        Some(self.end)
    }

    /// Whether the fault's own part is further in.
    pub fn is_cut_short(&self) -> bool
        ensures { result ≡ is_cut_short (path_of self.now).end }
    {
        self.end == CUT_SHORT
    }
}

// The word of a step, if it has room.
fn word_of(number: u32, position: usize) -> Option<u32>
    ensures { MatchOption result (¬ (HasRoom number position)) (λ word. HasRoom number position
        × (word ≢ 0) × (step_in word ≡ record { number = number; position = position })) }
{
    if number == 0 || number >= NUMBERS || position >= POSITIONS {
        return None;
    }
    Some(position as u32 * NUMBERS + number)
}

// The step in a word.
fn step_in(word: u32) -> Step
    ensures { result ≡ step_in word }
{
    Step {
        number: word % NUMBERS,
        position: word / NUMBERS,
    }
}

// Whether no word is 0.
fn is_full(words: &[u32; MOST_STEPS]) -> bool
    ensures { MatchBool result (6 ≤ length (steps_in words.now)) (length (steps_in words.now) < 6) }
{
    !words.contains(&0)
}

// The words after this one, without the last of them.
fn with_first(word: u32, words: &[u32; MOST_STEPS]) -> [u32; MOST_STEPS]
    ensures { result ≡ word ∷ take 5 words.now }
{
    let [first, second, third, fourth, fifth, _] = *words;
    [word, first, second, third, fourth, fifth]
}
