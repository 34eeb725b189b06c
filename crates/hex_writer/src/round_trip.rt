// A theorem and no code: reading a written image gives it back (specs/RoundTrip.antt).
