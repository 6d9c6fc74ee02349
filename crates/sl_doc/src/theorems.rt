ghost use Rattle.sl_doc.specs.Laws.{ReadsBack};

use sl_codes::first_fault_says;

/// The text of a document whose numbers are in their ranges, where it is no longer than a file may be, has no
/// fault and holds this document.
pub fn text_reads_back()
    ensures { ReadsBack }
{
    first_fault_says();
}
