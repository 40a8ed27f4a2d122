use ds_domain_base::DomainFault;
use ds_ledger_base::BookFault;
use dsedge_lines::Ending;
use dsedge_texts::{FaultyLine, RefusalLine};

/// How a reply of the program ends.
#[derive(Debug, Drop)]
pub enum Conclusion {
    /// The answer ends so.
    Ended(Ending),
    /// The text of the domain has a fault, and nothing is answered.
    Unsound(DomainFault),
    /// The text of the certificate has a fault, and nothing is answered.
    Uncertified(FaultyLine),
    /// The checker refuses the table with this line, and nothing is answered.
    Unaccepted(RefusalLine),
    /// The book of a broker does not go on from its ledger, and nothing is answered; or it is kept no more there, and
    /// the answer ends before what was not kept.
    Unkept(BookFault),
}
