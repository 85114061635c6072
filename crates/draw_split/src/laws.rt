//! Laws of draws, orders and offsets, over all counts. Each law is the contract of a function that does
//! nothing.

ghost use Rattle.draw_split.specs.Laws.{EachIsNamed, OneNamesBoth, OrdersExchange, EachIsListedOnce, NoOtherIsListed, AreInLexicalOrder, OrdersAreEquallyMany};

/// Draw lists correspond one to one to pairs of an order that fits and offsets in their rooms.
pub fn one_to_one()
    ensures named { EachIsNamed }
    ensures one { OneNamesBoth }
    ensures exchanged { OrdersExchange }
{}

/// Each order that fits is named by as many draw lists as any other.
pub fn equally_many()
    ensures once { EachIsListedOnce }
    ensures nothing_else { NoOtherIsListed }
    ensures lexical { AreInLexicalOrder }
    ensures equally { OrdersAreEquallyMany }
{}
