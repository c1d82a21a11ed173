//! To whom a run hands what becomes of its frames.

ghost use Rattle.std.specs.Prelude.{◌≡◌, ◌+◌, ℕ, MatchBool};
ghost use Rattle.std.specs.Iterator.{Count};
ghost use Rattle.gw_ports.specs.Sinks.{HasRoomFor};

/// Is handed by a port of a run, one after another, the outcomes of the frames that it took, or the copies that left there. A
/// list keeps them all, and has room for as many as its memory holds.
pub trait Sink<T>: Drop {
    // What it is once it was handed an item.
    ghost takes: { Self → T → Self → Type 0 };

    // How many items it has room for.
    ghost room: { Self → Count };

    /// Whether it has room for so many items.
    fn has_room_for(&self, items: usize) -> bool
        ensures { MatchBool result (HasRoomFor (room self.now) items) (¬ HasRoomFor (room self.now) items) };

    /// Hands it an item.
    fn take(&mut self, item: T)
        requires { HasRoomFor (room self.old) 1 }
        ensures taken { takes self.old item self.new }
        ensures left { (items : ℕ) → HasRoomFor (room self.old) (1 + items) → HasRoomFor (room self.new) items };
}

impl<T: Drop> Sink<T> for Vec<T> {
    ghost use Rattle.std.specs.Prelude.{◌-◌, vec_capacity, vec_len};
    ghost use Rattle.std.specs.Iterator.{at_most};
    ghost use Rattle.gw_ports.specs.Sinks.{Appends};

    ghost takes = { Appends };

    ghost room = { λ list. at_most (vec_capacity list - vec_len list) };

    fn has_room_for(&self, items: usize) -> bool {
        items <= self.capacity() - self.len()
    }

    fn take(&mut self, item: T) {
        self.push_reserved(item);
    }
}
