//! What is at work while processors die, shown by calls that do nothing.
ghost use Rattle.ppm_takeover.specs.Looks.{LooksComeSoon};
ghost use Rattle.ppm_takeover.specs.Lost.{HeldAreCarried, NothingIsLost, NothingIsLostOverLegs};
ghost use Rattle.ppm_takeover.specs.Short.{LooksAreShort};
ghost use Rattle.ppm_takeover.specs.Soon.{WorksSoonByPlaces};

/// With takeover by places, whatever the turns, hard faults among them: a place whose holder lives
/// is carried by it, or the holder has taken it over and has still to go there, or has left it for
/// another one. So at each moment of a run from an image of a sound code that isn't over, some
/// processor works, or is on its way to a place at work that it has taken over; or the holder of a
/// place at work is dead, and others may take it over. Over legs it is so too.
pub fn nothing_is_lost()
    ensures law { NothingIsLost }
    ensures legs { NothingIsLostOverLegs }
    ensures carried { HeldAreCarried }
{}

/// With takeover by places, whatever others do, hard faults of theirs among it, and whatever the
/// legs before: a processor that works makes a work turn within thirteen of its own steps, or the
/// finish word is set meanwhile.
pub fn work_turns_come_soon_by_places()
    ensures law { WorksSoonByPlaces }
{}

/// With takeover by places a row that seeks work, steals, checks what it stole, bids for a place or
/// looks whether its bid stands makes at most 6, 3, 4, 3 or 3 word steps, whatever it finds, after
/// the load of the finish word. Each ends as its kind allows, or has met broken words. So of the
/// next seventeen steps of a processor that isn't done one is the load of a holder word as it seeks
/// work, or a work turn, or it moves to a place that it has taken over, or the finish word is set.
pub fn looks_are_short()
    ensures law { LooksAreShort }
    ensures soon { LooksComeSoon }
{}
