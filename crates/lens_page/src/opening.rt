//! What stands before the lines of the run: the head of the page and its buttons.

ghost use Rattle.std.specs.Prelude.{◌≡◌};
ghost use Rattle.lens_page.specs.Opening.{page_opening};

const LINES: &str = concat!(
    "<!DOCTYPE html>\n",
    "<html lang='en'>\n",
    "<head>\n",
    "<meta charset='utf-8'>\n",
    "<meta name='viewport' content='width=device-width'>\n",
    "<title>lens page</title>\n",
    "<style>\n",
    "html, body { margin: 0; height: 100%; overflow: hidden; font: 12px sans-serif; color: #111827; }\n",
    "body { display: flex; flex-direction: column; }\n",
    "#bar { display: flex; flex-wrap: wrap; gap: 4px 8px; align-items: center; padding: 4px 8px; }\n",
    "#bar, #story { background: #f3f4f6; }\n",
    "#bar button { min-width: 26px; }\n",
    "#part { margin-left: auto; font-variant-numeric: tabular-nums; }\n",
    "#view { flex: 1; min-height: 0; width: 100%; display: block; touch-action: none; cursor: grab; }\n",
    "#view:focus { outline: none; }\n",
    "#legend { font-size: 11px; }\n",
    "#legend i { display: inline-block; width: 9px; height: 9px; margin-right: 3px; border-radius: 5px; }\n",
    "#story, #tip, #help { font: 11px monospace; white-space: pre; margin: 0; padding: 4px 8px; }\n",
    "#story { max-height: 25%; overflow: auto; flex: none; }\n",
    "#tip, #help { position: fixed; color: #fff; background: #111827e0; border-radius: 3px; z-index: 2; }\n",
    "#tip { pointer-events: none; max-width: 90%; overflow: hidden; }\n",
    "#help { right: 8px; top: 40px; }\n",
    "[hidden] { display: none !important; }\n",
    "@page { size: landscape; margin: 8mm; }\n",
    "@media print { #bar input, #bar button, #bar label, #tip, #help { display: none !important; } }\n",
    "</style>\n",
    "</head>\n",
    "<body>\n",
    "<div id='bar'>\n",
    "<input id='search' list='names' size='24' placeholder='words of records ( / )' aria-label='search'>\n",
    "<datalist id='names'></datalist>\n",
    "<button id='previous' title='the hit before ( p )'>&lt;</button>\n",
    "<button id='next' title='the next hit ( n )'>&gt;</button>\n",
    "<span id='hits' aria-live='polite'></span>\n",
    "<label title='( s )'><input type='checkbox' id='second'>second copies</label>\n",
    "<label title='( k )'><input type='checkbox' id='control' checked>control frames</label>\n",
    "<button id='nearer' title='zoom in ( + )'>+</button>\n",
    "<button id='farther' title='zoom out ( - )'>-</button>\n",
    "<button id='whole' title='the whole run ( 0 )'>whole run</button>\n",
    "<button id='keys' title='all keys ( ? )'>?</button>\n",
    "<span id='legend'></span>\n",
    "<span id='part'></span>\n",
    "</div>\n",
    "<canvas id='view' tabindex='0' role='img' aria-label='the records, a lane a device'></canvas>\n",
    "<pre id='story' hidden></pre>\n",
    "<pre id='tip' hidden></pre>\n",
    "<pre id='help' hidden>\n",
    "wheel         zoom at the pointer     + -  zoom           0  the whole run\n",
    "drag          pan                     left right          pan\n",
    "shift, wheel  pan                     up down             other lanes\n",
    "click         light a record, what it came of and what came of it\n",
    "[ ]           the record before, the next one, in its lane\n",
    "c e           its cause, its first effect\n",
    "/             search        n p  Enter  the next hit, the one before\n",
    "s k           second copies, control frames\n",
    "Escape        dim nothing   ?  these keys\n",
    "</pre>\n",
    "<script type='text/plain' id='run'>\n",
);

/// What stands before the lines of the run: the head of the page and its buttons.
pub(crate) fn page_opening() -> &'static str
    ensures { result.now ≡ page_opening }
{
    LINES
}
