// Who is told to give back, and how long a ring stays.
ghost use Rattle.promises.specs.Rings.{RingStays, ToldInARing};

// Whoever is told to give back stands in a ring of that moment, has its highest own sign, and no other of the ring has been told.
pub fn told_in_a_ring()
    ensures { ToldInARing }
{}

// A ring stays a ring, unless one of it had been told.
pub fn ring_stays()
    ensures { RingStays }
{}
