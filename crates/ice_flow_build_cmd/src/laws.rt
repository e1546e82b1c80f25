//! What follows from the answers of `build`, as contracts of functions that do nothing.
ghost use Rattle.ice_flow_build_cmd.specs.ExactlyShown.{MadeIsShownExactly};
ghost use Rattle.ice_flow_build_cmd.specs.Former.{CausesHaveFormerRows};
ghost use Rattle.ice_flow_build_cmd.specs.PinTexts.{PinTextsSetPins};

/// The bits that are written for a netlist, read by the chip that the chip's text says, are a circuit without a fault, which shows what the
/// netlist shows at the pads that its constraints give its ports, exactly those that are chosen; and the netlist is sound.
pub fn what_is_made_is_shown_exactly()
    ensures { MadeIsShownExactly }
{}

/// Where the cause of an answer of `build` is true, its files hold the three texts and the bits that show them with exactly the pads that
/// are chosen, where the status is 0; and what was given is what the texts give with the arrangement that is told.
pub fn causes_have_former_rows()
    ensures { CausesHaveFormerRows }
{}

/// A text of pin constraints that the reader takes says the names and pins of the constraints that the reader makes of it.
pub fn pin_texts_set_pins()
    ensures { PinTextsSetPins }
{}
