//! What admins are told: messages, and reports that are filled in from the world at the end of the event.
use tt_admin::AdminMsg;

/// What admins are told by one step. An `id` is the number of a company, or 4,294,967,295 for all that live: one message
/// for each, in rising order, and none where no such company lives.
#[derive(Debug, Drop)]
pub enum Report {
    /// This message.
    Message(AdminMsg),
    /// WELCOME: the game, and the day of its world.
    Welcome,
    /// DATE: the day of the world.
    Date,
    /// COMPANY_INFO: a company's name, its president's, and whether it has a password.
    CompanyInfo { id: u32 },
    /// COMPANY_ECONOMY: a company's money and loan.
    CompanyEconomy { id: u32 },
    /// COMPANY_STATS: how many signs a company owns.
    CompanyStats { id: u32 },
    /// RCON: the console's line on each company that lives.
    CompanyLines,
    /// The companies that the entries of the frame have founded or renamed: COMPANY_NEW and COMPANY_INFO, or
    /// COMPANY_UPDATE, as the company stands right behind each entry that was done.
    CompanyNews,
}
