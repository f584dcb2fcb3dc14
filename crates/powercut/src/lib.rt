// The power cut: storing an image and going on from it changes nothing. The function does nothing and carries the theorem as its promise.

#![tactic(auto)]

ghost use Rattle.powercut.specs.PowerCut.{PowerCut};

// Frames and image. Of every list of calls from the fresh schedule whose numbers fit their widths: the image after it is accepted and gives the
// schedule back, so that no later answer, row, listing or schedule differs; and a C host, which keeps only the image, sees the same run.
pub fn power_cut()
    ensures { PowerCut }
{}
