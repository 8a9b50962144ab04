// The service pane: a capture and a place in it. Each method takes it apart and leaves the work to a function on the slice and the place.
#![tactic(auto)]

ghost use Rattle.std.specs.Prelude.{◌≡◌, is_some, unwrap_or};
ghost use Rattle.capture_rules.specs.Calls.{says, character_says};
ghost use Rattle.capture_rules.specs.Panes.{place_says, moved_says, forward_from, back_from};

use refusal::Refusal;

#[derive(Clone, Copy, Debug)]
pub struct Pane<'a> {
    pub capture: &'a [u8],
    pub place: usize,
}

impl<'a> Pane<'a> {
    // A pane at the capture's start.
    pub fn open(capture: &'a [u8]) -> Pane<'a>
        ensures { (result.capture ≡ capture.entry) × (result.place ≡ 0) }
    {
        Pane { capture, place: 0 }
    }

    // Where the pane stands.
    pub fn place(self) -> Result<usize, Refusal>
        ensures { says result ≡ place_says self.entry.capture.now self.entry.place }
    {
        pane_moves::place_in(self.capture, self.place)
    }

    // The character that stands there.
    pub fn here(self) -> Result<u16, Refusal>
        ensures { says result ≡ character_says self.entry.capture.now self.entry.place }
    {
        capture::character_at(self.capture, self.place)
    }

    // Goes where a move leads, if it leads anywhere, and says whether.
    fn go(&mut self, to: Option<usize>) -> bool
        ensures { (result ≡ is_some to) × (self.new.capture ≡ self.old.capture) × (self.new.place ≡ unwrap_or to self.old.place) }
    {
        self.place = to.unwrap_or(self.place);
        to.is_some()
    }

    // Moves the pane forward, and says whether it moved.
    pub fn forward(&mut self) -> Result<bool, Refusal>
        ensures { (moved_says self.new.place result ≡ forward_from self.old.capture.now self.old.place)
            × (self.new.capture ≡ self.old.capture)
            × (self.new.place ≡ (forward_from self.old.capture.now self.old.place).place) }
    {
        let to = pane_moves::forward_from(self.capture, self.place)?;
        Ok(self.go(to))
    }

    // Moves the pane back, and says whether it moved.
    pub fn back(&mut self) -> Result<bool, Refusal>
        ensures { (moved_says self.new.place result ≡ back_from self.old.capture.now self.old.place)
            × (self.new.capture ≡ self.old.capture)
            × (self.new.place ≡ (back_from self.old.capture.now self.old.place).place) }
    {
        let to = pane_moves::back_from(self.capture, self.place)?;
        Ok(self.go(to))
    }
}

// The character that a fresh pane shows.
pub fn first(capture: &[u8]) -> Result<u16, Refusal>
    ensures { says result ≡ character_says capture.now 0 }
{
    Pane::open(capture).here()
}
