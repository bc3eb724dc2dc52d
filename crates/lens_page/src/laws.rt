ghost use Rattle.lens_page.specs.Laws.{PagesTell};

/// The report is read back from its page, and so is what the page tells of the network.
pub fn page_law()
    ensures { PagesTell }
{}
