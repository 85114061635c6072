ghost use Rattle.std.specs.Prelude.{◌≡◌};
ghost use Rattle.ticket_lock.specs.declared.customer.Stage.TheVariants.{Comes};
ghost use Rattle.ticket_lock.specs.Customer.{customer_announced, customer_after};

use event_class::Event;
use routine_kit::Routine;
use std::alloc::Global;
use std::marker::Model;
use surw_base::OutOfMemory;

/// The cell of the ticket that is given next.
pub const NEXT_TICKET: u64 = 0;

/// The cell of the ticket that is served.
pub const NOW_SERVED: u64 = 1;

/// The cell that the lock protects.
pub const TILL: u64 = 2;

/// Where a customer is in a visit.
#[derive(Clone, Copy)]
pub enum Stage {
    /// It takes a ticket.
    Comes,
    /// It has this ticket, and looks which one is served.
    Waits { ticket: u64 },
    /// It is served, and looks into the till.
    Served,
    /// It adds its payment to the till, which had so much.
    Pays { till: u64 },
    /// It lets the next ticket be served.
    Leaves,
}

/// A customer of a ticket lock, who makes some payments, each in a visit of its own.
#[derive(Drop)]
pub struct Customer {
    payments: Vec<u64>,
    // How many payments are made.
    visit: usize,
    stage: Stage,
}

impl Model for Customer {
    ghost use Rattle.ticket_lock.specs.Customer.{CustomerState};

    ghost Value = { CustomerState };

    ghost view = { λ customer. record {
      payments = customer.payments.items;
      visit = customer.visit;
      stage = customer.stage;
    } };
}

impl Customer {
    /// A customer before the first visit.
    pub fn new(payments: Vec<u64>) -> Customer
        ensures { result ≡ record { payments = payments.items; visit = 0; stage = Comes } }
    {
        Customer {
            payments,
            visit: 0,
            stage: Stage::Comes,
        }
    }
}

impl Routine for Customer {
    ghost announced = { customer_announced };

    ghost after_reply = { customer_after };

    fn announce(&self) -> Option<Event> {
        let payment = self.payments.as_slice().get(self.visit)?;
        Some(match self.stage {
            Stage::Comes => Event::Add {
                c: NEXT_TICKET,
                v: 1,
            },
            Stage::Waits { ticket: _ } => Event::Load { c: NOW_SERVED },
            Stage::Served => Event::Load { c: TILL },
            Stage::Pays { till } => Event::Store {
                c: TILL,
                v: till.wrapping_add(*payment),
            },
            Stage::Leaves => Event::Add {
                c: NOW_SERVED,
                v: 1,
            },
        })
    }

    fn take(&mut self, reply: u64) {
        match self.stage {
            Stage::Comes => self.stage = Stage::Waits { ticket: reply },
            Stage::Waits { ticket } => {
                if reply == ticket {
                    self.stage = Stage::Served;
                }
            }
            Stage::Served => self.stage = Stage::Pays { till: reply },
            Stage::Pays { till: _ } => self.stage = Stage::Leaves,
            Stage::Leaves => {
                self.stage = Stage::Comes;
                self.visit += 1;
            }
        }
    }

    fn copy(&self, alloc: Global) -> Result<Customer, OutOfMemory> {
        Ok(Customer {
            payments: Vec::from_slice(alloc, self.payments.as_slice())?,
            visit: self.visit,
            stage: self.stage,
        })
    }
}
