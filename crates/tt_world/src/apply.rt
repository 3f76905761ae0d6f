//! What commands do to a world.
ghost use Rattle.std.specs.Prelude.{◌≡◌, ◌≢◌, is_none, ◌==◌, false, IsSome, IfSome, pos, ◌+ℤ◌, ◌≤ℤ◌, ◌<◌, true, length};
ghost use Rattle.std.specs.List.{list_any};
ghost use Rattle.tt_world.specs.declared.effect.Effect.TheVariants.{Done};
ghost use Rattle.tt_world.specs.declared.command.Code.TheVariants.{Pause, NewCompany};
ghost use Rattle.tt_world.specs.World.{company_of};
ghost use Rattle.tt_frame.specs.Text.{IsName, IsShort};
ghost use Rattle.tt_world.specs.Sound.{IsCompany, most_money};
ghost use Rattle.tt_world.specs.Commands.{applied, refusal, done, sign_renamed, founded, changed, of_live, increase_refusal};
ghost use Rattle.tt_world.specs.Commands.{increased, decrease_refusal, decreased, president_renamed, gift_refusal, given};
ghost use Rattle.tt_world.specs.Commands.{poorer, richer, is_name_of_another, renamed, placed, is_sign_of, without_sign, with_text};

use crate::command::{Code, Entry};
use crate::company::Company;
use crate::effect::{Effect, Why};
use crate::sign::Sign;
use crate::world::World;
use crate::{changes, founding, refusals, signs};
use tt_frame::Name;

impl World {
    /// Does what a command asks, where it is not refused; a refused one leaves the world as it was. It takes no memory.
    pub fn apply(&mut self, entry: &Entry) -> Effect
        ensures effect { result ≡ (applied self.old entry.now).1 }
        ensures world { self.new ≡ (applied self.old entry.now).0 }
        ensures refused { result ≢ Done → self.new ≡ self.old }
    {
        match self.refusal(entry) {
            Some(why) => Effect::Refused(why),
            None => {
                self.carry_out(entry);
                Effect::Done
            }
        }
    }

    /// Why a command is refused, if it is.
    fn refusal(&self, entry: &Entry) -> Option<Why>
        ensures { result ≡ refusal self.now entry.now }
    {
        let command = &entry.command;
        match command.code {
            Code::Pause => refusals::pause(command.number, self.paused),
            Code::NewCompany => refusals::found(&self.companies),
            _ => match self.company(entry.company) {
                None => Some(Why::NoCompany),
                Some(company) => self.refusal_of(entry, company),
            },
        }
    }

    /// Why a command of a live company is refused, if it is.
    fn refusal_of(&self, entry: &Entry, company: &Company) -> Option<Why>
        requires live { company_of self.now entry.now.company ≡ Some company.now }
        requires sound { IsCompany company.now }
        requires within { entry.now.company < 15 }
        requires not_pause { entry.now.command.code ≢ Pause }
        requires not_founded { entry.now.command.code ≢ NewCompany }
        ensures { result ≡ refusal self.now entry.now }
    {
        let command = &entry.command;
        let number = command.number;
        match command.code {
            Code::IncreaseLoan => refusals::increase_loan(number, company),
            Code::DecreaseLoan => refusals::decrease_loan(number, company),
            Code::Give => refusals::give(
                entry.company,
                command.to,
                number,
                self.company(command.to),
                company,
            ),
            Code::PlaceSign => refusals::place_sign(
                number,
                command.text.bytes(),
                self.signs.as_slice(),
            ),
            Code::RenameSign => refusals::rename_sign(number, entry.company, self.signs.as_slice()),
            Code::RenameCompany => {
                refusals::rename_company(
                    usize::from(entry.company),
                    command.text.bytes(),
                    &self.companies,
                )
            }
            Code::RenamePresident => refusals::rename_president(command.text.bytes()),
            Code::Pause | Code::NewCompany => unreachable!(),
        }
    }

    /// Does what a command asks that is not refused.
    fn carry_out(&mut self, entry: &Entry)
        requires { refusal self.old entry.now ≡ None }
        ensures { self.new ≡ done self.old entry.now }
    {
        let command = &entry.command;
        let company = entry.company;
        let number = command.number;
        let text = command.text.bytes();
        match command.code {
            Code::IncreaseLoan => self.increase_loan(company, number),
            Code::DecreaseLoan => self.decrease_loan(company, number),
            Code::Give => self.give(company, command.to, number),
            Code::PlaceSign => self.place_sign(company, number, founding::name_of(text)),
            Code::RenameSign => self.rename_sign(number, company, text),
            Code::RenameCompany => self.rename_company(company, founding::name_of(text)),
            Code::RenamePresident => self.rename_president(company, founding::name_of(text)),
            Code::Pause => self.pause(number),
            Code::NewCompany => self.found(),
        }
    }

    /// RenameSign.
    fn rename_sign(&mut self, id: u32, owner: u8, text: &[u8])
        requires there { list_any (is_sign_of id owner) self.old.signs ≡ true }
        requires short { IsShort text.now }
        ensures { self.new ≡ record self.old { signs = sign_renamed id owner text.now self.old.signs } }
    {
        if text.is_empty() {
            self.take_sign(id, owner);
        } else {
            self.change_sign(id, owner, founding::name_of(text));
        }
    }

    /// IncreaseLoan.
    pub(crate) fn increase_loan(&mut self, company: u8, number: u32)
        requires { of_live (company_of self.old company) (increase_refusal number) ≡ None }
        ensures { self.new ≡ changed company (increased number) self.old }
    {
        changes::increase_loan(&mut self.companies[usize::from(company)], number);
    }

    /// DecreaseLoan.
    pub(crate) fn decrease_loan(&mut self, company: u8, number: u32)
        requires { of_live (company_of self.old company) (decrease_refusal number) ≡ None }
        ensures { self.new ≡ changed company (decreased number) self.old }
    {
        changes::decrease_loan(&mut self.companies[usize::from(company)], number);
    }

    /// Give.
    pub(crate) fn give(&mut self, from: u8, to: u8, number: u32)
        requires { of_live (company_of self.old from) (gift_refusal from to number (company_of self.old to)) ≡ None }
        ensures { self.new ≡ given from to number self.old }
    {
        self.pay_out(from, number);
        self.pay_in(to, number);
    }

    /// A company gives money away.
    fn pay_out(&mut self, company: u8, number: u32)
        requires live { IsSome (company_of self.old company) }
        requires own { IfSome (company_of self.old company) (λ c. pos number ≤ℤ c.money) }
        ensures { self.new ≡ changed company (poorer number) self.old }
    {
        changes::take_money(&mut self.companies[usize::from(company)], number);
    }

    /// A company is given money.
    fn pay_in(&mut self, company: u8, number: u32)
        requires live { IsSome (company_of self.old company) }
        requires room { IfSome (company_of self.old company) (λ c. (c.money +ℤ pos number) ≤ℤ pos most_money) }
        ensures { self.new ≡ changed company (richer number) self.old }
    {
        changes::add_money(&mut self.companies[usize::from(company)], number);
    }

    /// RenameCompany.
    pub(crate) fn rename_company(&mut self, company: u8, name: Name)
        requires live { IsSome (company_of self.old company) }
        requires name { IsName name }
        requires free { is_name_of_another company name self.old.companies ≡ false }
        ensures { self.new ≡ changed company (renamed name) self.old }
    {
        changes::rename(&mut self.companies[usize::from(company)], name);
    }

    /// RenamePresident.
    pub(crate) fn rename_president(&mut self, company: u8, name: Name)
        requires live { IsSome (company_of self.old company) }
        requires name { IsName name }
        ensures { self.new ≡ changed company (president_renamed name) self.old }
    {
        changes::rename_president(&mut self.companies[usize::from(company)], name);
    }

    /// PlaceSign.
    pub(crate) fn place_sign(&mut self, owner: u8, tile: u32, text: Name)
        requires live { IsSome (company_of self.old owner) }
        requires tile { tile < 1048576 }
        requires name { IsName text }
        requires room { length self.old.signs < 1000 }
        ensures { self.new ≡ record self.old { signs = placed owner tile text self.old.signs } }
    {
        let id = signs::first_gap(self.signs.as_slice());
        let sign = Sign {
            id: id as u16,
            owner,
            tile,
            text,
        };
        match self.signs.insert(id, sign) {
            Ok(()) => {}
            Err(_) => unreachable!(),
        }
    }

    /// RenameSign, without a text: the sign is taken away.
    fn take_sign(&mut self, id: u32, owner: u8)
        requires { list_any (is_sign_of id owner) self.old.signs ≡ true }
        ensures { self.new ≡ record self.old { signs = without_sign id owner self.old.signs } }
    {
        let place = signs::place_of(id, owner, self.signs.as_slice());
        self.signs.remove(place);
    }

    /// RenameSign, with a text.
    fn change_sign(&mut self, id: u32, owner: u8, text: Name)
        requires { IsName text }
        ensures { self.new ≡ record self.old { signs = with_text id owner text self.old.signs } }
    {
        signs::change(id, owner, &text, self.signs.as_mut_slice());
    }

    /// NewCompany.
    pub(crate) fn found(&mut self)
        requires { list_any is_none self.old.companies ≡ true }
        ensures { self.new ≡ founded self.old }
    {
        let n = founding::new_number(&self.companies);
        let company = founding::new_company(&self.companies);
        self.companies[n] = Some(company);
    }

    /// Pause.
    pub(crate) fn pause(&mut self, number: u32)
        ensures { self.new ≡ record self.old { paused = number == 1 } }
    {
        self.paused = number == 1;
    }
}
