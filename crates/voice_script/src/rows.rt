//! Rows on both sides of every limit, checked on the definitions.
ghost use Rattle.voice_script.specs.Rows.{CreationRows, RangeRows, NumberRows, LineRows, NameRows, ControlRows, ChainRows, OneNumberRows, OneSpaceRows, ReplyRows};

/// The law that the definitions give what the rows say. The call does nothing: its contract is the law.
pub fn grammar_rows()
    ensures creations { CreationRows }
    ensures ranges { RangeRows }
    ensures numbers { NumberRows }
    ensures lines { LineRows }
    ensures names { NameRows }
    ensures controls { ControlRows }
    ensures chains { ChainRows }
    ensures one_numbers { OneNumberRows }
    ensures one_spaces { OneSpaceRows }
    ensures replies { ReplyRows }
{}
