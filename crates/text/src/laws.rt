// What is proved of every text. The function does nothing: its contract is the theorem.
ghost use Rattle.text.specs.Theorems.{OneReading};

// That of every text exactly one answer is right.
pub fn one_reading()
    ensures { OneReading }
{}
