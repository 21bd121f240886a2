//! Laws of the list of events at a place: each function proves one, and does nothing.
ghost use Rattle.log_model.specs.Events.{EventsEnd, EventsGoOn};

/// Where an event stands, it is the first of the list, and the others stand behind it.
pub fn events_go_on()
    ensures { EventsGoOn }
{}

/// Where none stands, the list is empty, and stops for that reason.
pub fn events_end()
    ensures { EventsEnd }
{}
